//! Colours that are read on a page.
//!
//! A text is read where its contrast is 4.5:1 at least, by WCAG 2.1 (`specs/Contrast.antt` has it in
//! integers): on a light page, which is white, and on each dark page that is no lighter than #1e1e1e.
ghost use Rattle.std.specs.Prelude.{◌≡◌, ◌≤◌, ◌^◌, IsTrue};
ghost use Rattle.ansi_html.specs.Contrast.{linear, is_made_linear, luminance, is_readable, are_readable, is_read_on_light, is_read_on_dark, IsReadOnLight, IsReadOnDark, darkened, lightened, light_shade, dark_shade, ink, part, mixed, mixture, dim_on};

/// A colour by its red, green and blue, as sRGB has them.
#[derive(Debug, Clone, Copy, PartialEq, Eq)]
pub struct Rgb {
    pub red: u8,
    pub green: u8,
    pub blue: u8,
}

/// No light at all.
pub const BLACK: Rgb = Rgb {
    red: 0,
    green: 0,
    blue: 0,
};

/// All of it.
pub const WHITE: Rgb = Rgb {
    red: 255,
    green: 255,
    blue: 255,
};

/// The lightest of the dark pages.
const LIGHTEST_DARK: Rgb = Rgb {
    red: 0x1E,
    green: 0x1E,
    blue: 0x1E,
};

/// A whole colour, in the shares of which shades are made.
const WHOLE: u16 = 16;

/// The share of a dim colour that stays.
const DIM: u16 = 11;

/// What a byte of a colour is, made linear as WCAG 2.1 does it, in millionths and rounded down.
pub fn linear(value: u8) -> u32
    ensures value { result ≡ linear value }
    ensures made_linear { IsTrue (is_made_linear value result) }
    ensures most { result ≤ 10 ^ 6 }
{
    LINEAR[usize::from(value)]
}

/// Whether a text and its ground of these luminances have a contrast of 4.5:1.
fn is_readable(lighter: u64, darker: u64) -> bool
    requires lighter { lighter ≤ 10 ^ 10 }
    requires darker { darker ≤ 10 ^ 10 }
    ensures { result ≡ is_readable lighter darker }
{
    9 * (darker + 10_000 + 500_000_000) <= 2 * (lighter + 500_000_000)
}

impl Rgb {
    /// The luminance in units of 10^-10, rounded down: 0 to 10^10.
    #[tactic(auto, unfolding(crate::specs::Contrast::luminance))]
    pub fn luminance(self) -> u64
        ensures value { result ≡ luminance self }
        ensures most { result ≤ 10 ^ 10 }
    {
        2126 * u64::from(linear(self.red))
            + 7152 * u64::from(linear(self.green))
            + 722 * u64::from(linear(self.blue))
    }

    /// Whether it is read on light pages.
    pub fn is_read_on_light(self) -> bool
        ensures { result ≡ is_read_on_light self }
    {
        is_readable(WHITE.luminance(), self.luminance())
    }

    /// Whether it is read on dark pages.
    pub fn is_read_on_dark(self) -> bool
        ensures { result ≡ is_read_on_dark self }
    {
        is_readable(self.luminance(), LIGHTEST_DARK.luminance())
    }

    /// Whether one of two colours is read on the other.
    pub fn is_read_on(self, other: Rgb) -> bool
        ensures { result ≡ are_readable self other }
    {
        is_readable(self.luminance(), other.luminance())
            || is_readable(other.luminance(), self.luminance())
    }

    /// The shade for light pages: the colour itself where it is read there, and else as much of it
    /// as is read, in sixteenths, and the rest black.
    pub fn light_shade(self) -> Rgb
        ensures value { result ≡ light_shade self }
        ensures contrast { IsReadOnLight result }
        ensures stays { IsReadOnLight self → result ≡ self }
    {
        let mut share = WHOLE;
        'shares: while 0 < share {
            let shade = self.darkened(share);
            if shade.is_read_on_light() {
                return shade;
            }
            share -= 1;
        }
        BLACK
    }

    /// The shade for dark pages: the same, and the rest white.
    pub fn dark_shade(self) -> Rgb
        ensures value { result ≡ dark_shade self }
        ensures contrast { IsReadOnDark result }
        ensures stays { IsReadOnDark self → result ≡ self }
    {
        let mut share = WHOLE;
        'shares: while 0 < share {
            let shade = self.lightened(share);
            if shade.is_read_on_dark() {
                return shade;
            }
            share -= 1;
        }
        WHITE
    }

    /// The text on this ground where none is chosen: white where that is read, and else black.
    pub fn ink(self) -> Rgb
        ensures value { result ≡ ink self }
        ensures contrast { IsTrue (are_readable result self) }
    {
        if is_readable(WHITE.luminance(), self.luminance()) {
            WHITE
        } else {
            BLACK
        }
    }

    /// A dim text on this ground, where a mixture of both is read, and else the text itself.
    pub fn dim_on(self, behind: Rgb) -> Rgb
        ensures value { result ≡ dim_on self behind }
        ensures contrast { IsTrue (are_readable self behind) → IsTrue (are_readable result behind) }
    {
        let mixture = self.mixture(behind);
        if mixture.is_read_on(behind) {
            mixture
        } else {
            self
        }
    }

    /// So many sixteenths of the colour, and the rest black.
    fn darkened(self, share: u16) -> Rgb
        requires { share ≤ 16 }
        ensures { result ≡ darkened share self }
    {
        Rgb {
            red: part(share, self.red),
            green: part(share, self.green),
            blue: part(share, self.blue),
        }
    }

    /// The same, and the rest white.
    fn lightened(self, share: u16) -> Rgb
        requires { share ≤ 16 }
        ensures { result ≡ lightened share self }
    {
        Rgb {
            red: 255 - part(share, 255 - self.red),
            green: 255 - part(share, 255 - self.green),
            blue: 255 - part(share, 255 - self.blue),
        }
    }

    /// A text that is mixed with its ground, of which a part of 5 in 16 shows through.
    pub(crate) fn mixture(self, behind: Rgb) -> Rgb
        ensures { result ≡ mixture self behind }
    {
        Rgb {
            red: mixed(self.red, behind.red),
            green: mixed(self.green, behind.green),
            blue: mixed(self.blue, behind.blue),
        }
    }
}

/// So many sixteenths of a byte.
fn part(share: u16, value: u8) -> u8
    requires { share ≤ 16 }
    ensures { result ≡ part share value }
{
    (share * u16::from(value) / WHOLE) as u8
}

/// A byte between two.
fn mixed(text: u8, behind: u8) -> u8
    ensures { result ≡ mixed text behind }
{
    ((DIM * u16::from(text) + (WHOLE - DIM) * u16::from(behind)) / WHOLE) as u8
}

/// [`linear`] of each byte.
const LINEAR: [u32; 256] = [
    0, 303, 607, 910, 1214, 1517, 1821, 2124, 2428, 2731, 3035, 3346, 3676, 4024, 4391, 4776, 5181,
    5605, 6048, 6512, 6995, 7499, 8023, 8568, 9134, 9721, 10329, 10960, 11612, 12286, 12983, 13702,
    14443, 15208, 15996, 16807, 17641, 18500, 19382, 20288, 21219, 22173, 23153, 24157, 25186,
    26241, 27320, 28426, 29556, 30713, 31896, 33104, 34339, 35601, 36889, 38204, 39546, 40915,
    42311, 43735, 45186, 46665, 48171, 49706, 51269, 52860, 54480, 56128, 57805, 59511, 61246,
    63010, 64803, 66625, 68478, 70360, 72271, 74213, 76185, 78187, 80219, 82282, 84376, 86500,
    88655, 90841, 93058, 95307, 97587, 99898, 102241, 104616, 107023, 109461, 111932, 114435,
    116970, 119538, 122138, 124771, 127437, 130136, 132868, 135633, 138431, 141263, 144128, 147027,
    149959, 152926, 155926, 158960, 162029, 165132, 168269, 171441, 174647, 177888, 181164, 184474,
    187820, 191201, 194617, 198069, 201556, 205078, 208636, 212230, 215860, 219526, 223227, 226965,
    230740, 234550, 238397, 242281, 246201, 250158, 254152, 258182, 262250, 266355, 270497, 274677,
    278894, 283148, 287440, 291770, 296138, 300543, 304987, 309468, 313988, 318546, 323143, 327778,
    332451, 337163, 341914, 346704, 351532, 356400, 361306, 366252, 371237, 376262, 381326, 386429,
    391572, 396755, 401977, 407240, 412542, 417885, 423267, 428690, 434153, 439657, 445201, 450785,
    456411, 462076, 467783, 473531, 479320, 485149, 491020, 496932, 502886, 508881, 514917, 520995,
    527115, 533276, 539479, 545724, 552011, 558340, 564711, 571124, 577580, 584078, 590618, 597201,
    603827, 610495, 617206, 623960, 630757, 637596, 644479, 651405, 658374, 665387, 672443, 679542,
    686685, 693871, 701101, 708375, 715693, 723055, 730460, 737910, 745404, 752942, 760524, 768151,
    775822, 783537, 791297, 799102, 806952, 814846, 822785, 830769, 838799, 846873, 854992, 863157,
    871367, 879622, 887923, 896269, 904661, 913098, 921581, 930110, 938685, 947306, 955973, 964686,
    973445, 982250, 991102, 1000000,
];
