//! Laws of streams whose addresses are links. Each is the contract of a function that does nothing.
ghost use Rattle.std.specs.Prelude.{◌≡◌, ◌++◌, ℕ, Bool, List, [], map, nat_lt, IsTrue};
ghost use Rattle.std.specs.List.{flat_map};
ghost use Rattle.anstyle_parse.specs.Stream.Call.{Call};
ghost use Rattle.anstyle_parse.specs.Stream.Items.{EachIs};
ghost use Rattle.anstyle_parse.specs.Stream.Calls.{AreCalls};
ghost use Rattle.anstyle_parse.specs.Laws.Lawful.{AreMade};
ghost use Rattle.ansi_html.specs.declared.scheme.Styling.{Styling};
ghost use Rattle.ansi_html.specs.Links.{has_scheme, is_visible};
ghost use Rattle.ansi_html.specs.Html.{html};
ghost use Rattle.ansi_html.specs.Lines.{lined_html};
ghost use Rattle.ansi_html.specs.Blocks.{blocked_html};
ghost use Rattle.ansi_html.specs.Reader.{href_of, read};
ghost use Rattle.ansi_strip.specs.Strip.{stripped};
ghost use Rattle.html_urls.specs.Addresses.{is_of_address, address_of, target_of, IsAddressOf};
ghost use Rattle.html_urls.specs.Linked.{linked};
ghost use Rattle.html_urls.specs.Found.{Part, AreParts, with_link, hrefs, hrefs_paid, hrefs_in_blocks};
ghost use Rattle.html_urls.specs.Html.{urls_text, urls_ending, lined_urls_text, lined_urls_ending, blocked_urls_text, blocked_urls_ending};

/// The links change no text: what stripping leaves of the calls with these links is what it leaves of the stream.
pub fn same_text()
    ensures { (calls : List Call) → stripped (linked calls) ≡ stripped calls }
{}

/// The calls of a stream in which addresses are links are those of a stream too: some bytes make them. So all that is
/// said of the calls of a stream holds of them, as by `grammar` of [`ansi_html::convert`] that no markup comes in.
pub fn linked_stream()
    ensures { (bytes : List ℕ) (calls : List Call) → AreCalls bytes calls → AreMade (linked calls) }
{}

/// What is written, and then the ending, is the HTML of the calls in which addresses are links; so all that
/// [`ansi_html`] says of HTML holds of it, as that each link begins with one of the three schemes.
pub fn html_of_links()
    ensures html { (styling : Styling) (calls : List Call)
        → urls_text styling calls ++ urls_ending styling calls ≡ html styling (linked calls) }
    ensures lined { (styling : Styling) (calls : List Call)
        → lined_urls_text styling calls ++ lined_urls_ending styling calls ≡ lined_html styling (linked calls) }
    ensures blocked { (numbered : Bool) (styling : Styling) (calls : List Call)
        → blocked_urls_text numbered styling calls ++ blocked_urls_ending numbered styling calls
        ≡ blocked_html numbered styling (linked calls) }
{}

/// The addresses in the text of a stream are found, and each is a link to what it says; nothing else becomes one.
pub fn addresses()
    // A stream has parts in which each address is found; the calls of these parts are what is written as HTML.
    ensures found { (calls : List Call)
        → (parts : List Part) × AreParts calls parts × (linked calls ≡ flat_map with_link parts) }

    // The address of a run is the longest front of it that ends well.
    ensures address { (run : List ℕ) → IsAddressOf run (address_of run) }

    // It has no others: what an address is does not depend on who looks for it.
    ensures only { (calls : List Call) (one other : List Part) → AreParts calls one → AreParts calls other
        → one ≡ other }

    // Its link has it in ASCII; and the address itself, where that is of ASCII and its scheme has small letters.
    ensures ascii { (address : List ℕ) → EachIs is_of_address address → EachIs is_visible (target_of address) }
    ensures plain { (address : List ℕ) → IsTrue (has_scheme address) → EachIs (λ c. nat_lt c 0x80) address
        → target_of address ≡ address }

    // A reader sees each byte of the text of an address in the link to it, and each other one in the link that the
    // stream has there, or in none.
    ensures links { (styling : Styling) (calls : List Call) (parts : List Part) → AreParts calls parts
        → map href_of (read (html styling (linked calls))) ≡ hrefs [] parts }

    // In lines a link of the stream's own, and none to an address, ends after a line feed where it can't pay to go on.
    ensures lined { (styling : Styling) (calls : List Call) (parts : List Part) → AreParts calls parts
        → map href_of (read (lined_html styling (linked calls))) ≡ hrefs_paid 0 [] parts }
    ensures blocked { (numbered : Bool) (styling : Styling) (calls : List Call) (parts : List Part)
        → AreParts calls parts
        → map href_of (read (blocked_html numbered styling (linked calls))) ≡ hrefs_in_blocks numbered parts }
{}
