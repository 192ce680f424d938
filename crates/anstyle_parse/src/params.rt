//! The parameters of a control sequence or of a device control string: groups of fields.
//! A list of fixed size, so that no byte of a stream takes memory.
#[cfg(test)]
mod tests;

ghost use Rattle.anstyle_parse.specs.Stream.Arguments.{max_fields};
ghost use Rattle.std.specs.Prelude.{◌≡◌, ◌<◌, ◌≤◌, ◌+◌, ◌-◌, ◌/◌, ◌%◌, ◌^◌, ◌++◌, ◌∷◌, [], ◌↔◌, ℕ, IsTrue, IfSome, IfNone, ⊤, length, map, take};
ghost use Rattle.std.specs.Bool.{OnFalse, OnTrue};
ghost use Rattle.std.specs.List.{concat};
ghost use Rattle.anstyle_parse.specs.Stream.Groups.{fields_text};
ghost use Rattle.std.specs.Iterator.{YieldsFirstBy, item_count, UpTo};
ghost use Rattle.std.specs.Iterator.SizeHint.{IsWithinCount};
ghost use Rattle.std.specs.Fmt.{WritesOnOk};

use std::alloc::AllocError;
use std::fmt;
use std::iter::FusedIterator;

/// The fields that are stored at most; those that come later are dropped.
pub const MAX_PARAMS: usize = 32;

/// The parameters of a sequence: `;` separates groups, and `:` the fields of one group.
#[derive(PartialEq, Eq, Drop)]
pub struct Params {
    /// All fields, group after group.
    numbers: [u16; MAX_PARAMS],
    /// Bit i is set exactly if a group begins at field i.
    starts: u32,
    /// How many fields the open group has; 0 where no group is open.
    open_fields: u8,
    /// How many fields there are.
    len: usize,
    ghost in_range: { len ≤ max_fields },
    ghost none_above: { starts < 2 ^ len },
    ghost first_starts: { 0 < len → starts % 2 ≡ 1 },
    ghost open_within: { open_fields ≤ len },
    ghost open_is_last: { 0 < open_fields → starts / 2 ^ (len - open_fields) ≡ 1 },
}

impl Params {
    ghost use Rattle.anstyle_parse.specs.Stream.Groups.{HaveFields};
    ghost use Rattle.anstyle_parse.specs.Views.Params.{groups_shown, groups_left, closed_groups_of, open_group_of, AreFew};

    /// How many fields there are, subparameters included: at most 32.
    pub fn len(&self) -> usize
        ensures fields { result ≡ length (concat (groups_shown self.now)) }
        ensures limit { result ≤ max_fields }
    {
        self.len
    }

    /// Whether there is no field.
    pub fn is_empty(&self) -> bool
        ensures { IsTrue result ↔ (groups_shown self.now ≡ []) }
    {
        self.len == 0
    }

    /// The groups in order, each a slice of these parameters. None of them is empty, and
    /// there are at most 32 fields in all.
    pub fn iter(&self) -> ParamsIter<'_>
        ensures groups { groups_left result ≡ groups_shown self.now }
        ensures have_fields { HaveFields (groups_shown self.now) }
        ensures limit { AreFew (groups_shown self.now) }
    {
        let numbers = &self.numbers[..];
        ParamsIter {
            numbers: &numbers[..self.len],
            starts: self.starts,
            place: 0,
        }
    }

    /// All that can be stored, and how many fields there are, where each of them is a group of its own, as without
    /// `:` they are: so that a performer can look at the first few fields at once, however many there are.
    #[inline]
    pub fn lone_fields(&self) -> Option<(&[u16; MAX_PARAMS], usize)>
        ensures alone { IfSome result (λ fields. groups_shown self.now
            ≡ map (λ field. field ∷ []) (take fields.1 fields.0.now)) }
        ensures limit { IfSome result (λ fields. fields.1 ≤ max_fields) }
        ensures others { IfNone result
            (length (groups_shown self.now) < length (concat (groups_shown self.now))) }
    {
        if u64::from(self.starts) + 1 == 1 << self.len {
            Some((&self.numbers, self.len))
        } else {
            None
        }
    }

    /// Whether there is no room for another field.
    pub(crate) fn is_full(&self) -> bool
        ensures full { IsTrue result
            ↔ (length (concat (closed_groups_of self.now)) + length (open_group_of self.now) ≡ max_fields) }
        ensures room { OnFalse result
            (length (concat (closed_groups_of self.now)) + length (open_group_of self.now) < max_fields) }
    {
        self.len == MAX_PARAMS
    }

    /// Whether the last group may get further fields.
    pub(crate) fn is_open(&self) -> bool
        ensures open { OnTrue result (0 < length (open_group_of self.now)) }
        ensures closed { OnFalse result (open_group_of self.now ≡ []) }
    {
        self.open_fields > 0
    }

    /// Empties the list.
    pub(crate) fn clear(&mut self)
        ensures closed { closed_groups_of self.new ≡ [] }
        ensures open { open_group_of self.new ≡ [] }
    {
        self.starts = 0;
        self.open_fields = 0;
        self.len = 0;
    }

    /// Adds a field to the open group, or to a new one, and closes that group.
    pub(crate) fn push(&mut self, field: u16)
        requires { length (concat (closed_groups_of self.old)) + length (open_group_of self.old) < max_fields }
        ensures closed { closed_groups_of self.new
            ≡ closed_groups_of self.old ++ (open_group_of self.old ++ field ∷ []) ∷ [] }
        ensures open { open_group_of self.new ≡ [] }
    {
        self.extend(field);
        self.close();
    }

    /// Adds a field to the open group, or to a new one, which stays open.
    pub(crate) fn extend(&mut self, field: u16)
        requires { length (concat (closed_groups_of self.old)) + length (open_group_of self.old) < max_fields }
        ensures closed { closed_groups_of self.new ≡ closed_groups_of self.old }
        ensures open { open_group_of self.new ≡ open_group_of self.old ++ field ∷ [] }
    {
        let starts = if self.open_fields == 0 {
            self.starts | start_bit(self.len)
        } else {
            self.starts
        };
        self.starts = starts;
        self.numbers[self.len] = field;
        self.open_fields += 1;
        self.len += 1;
    }

    /// Closes the open group, if there is one.
    fn close(&mut self)
        ensures closed { closed_groups_of self.new ≡ groups_shown self.old }
        ensures open { open_group_of self.new ≡ [] }
    {
        self.open_fields = 0;
    }
}

impl Default for Params {
    ghost use Rattle.anstyle_parse.specs.Views.Params.{groups_shown};

    ghost is_default = { λ params. groups_shown params ≡ [] };

    fn default() -> Params {
        Params {
            numbers: [0; MAX_PARAMS],
            starts: 0,
            open_fields: 0,
            len: 0,
        }
    }
}

/// `[`, the groups with `;` between them, the fields of a group in decimal with `:` between
/// them, then `]`.
impl fmt::Debug for Params {
    ghost use Rattle.std.specs.Prelude.{Some};
    ghost use Rattle.anstyle_parse.specs.Views.Params.{groups_shown};
    ghost use Rattle.anstyle_parse.specs.Laws.DebugText.{debug_text};

    ghost debug_output = { λ params. Some (debug_text (groups_shown params)) };

    fn fmt<W: fmt::Write>(&self, f: &mut fmt::Formatter<W>) -> fmt::Result {
        f.write_str("[")?;
        self.iter().write_texts(f)?;
        f.write_str("]")
    }
}

impl Clone for Params {
    ghost is_clone = { λ params clone. clone ≡ params };

    ghost is_infallible = { λ _. ⊤ };

    /// The same value; it never fails.
    fn clone(&self) -> Result<Params, AllocError> {
        Ok(Params {
            numbers: self.numbers,
            starts: self.starts,
            open_fields: self.open_fields,
            len: self.len,
        })
    }
}

/// Laws: functions that do nothing, for what they ensure.
impl Params {
    ghost use Rattle.std.specs.Prelude.{List};
    ghost use Rattle.std.specs.Cmp.{IsEquivalence};
    ghost use Rattle.anstyle_parse.specs.Views.Params.{groups_shown};
    ghost use Rattle.anstyle_parse.specs.Stream.Call.{Call};
    ghost use Rattle.anstyle_parse.specs.Stream.Calls.{AreCalls};
    ghost use Rattle.anstyle_parse.specs.Laws.TextLaw.{AreSent, HandsOut, IsReadBack};

    /// `==` is reflexive, symmetric and transitive, and equal parameters show equal groups.
    ///
    /// Parameters that show equal groups may differ: what is left over from an earlier
    /// sequence is compared too.
    pub fn equality_law()
        ensures equivalence { IsEquivalence ⟦<Params as PartialEq>⟧.eq }
        ensures groups { (a b : Params) → IsTrue (⟦<Params as PartialEq>⟧.eq a b)
            → groups_shown a ≡ groups_shown b }
    {}

    /// The Debug text of parameters that a parser hands out says to a parser the same again:
    /// 1B, that text without its last byte, then 6D make one `csi_dispatch` of the same
    /// groups, with no intermediates and `ignore` false.
    pub fn text_law()
        ensures handed_out { (bytes : List ℕ) (before : List Call)
            (call : Call) (after : List Call) (groups : List (List ℕ))
            → AreCalls bytes (before ++ call ∷ after) → HandsOut call groups → IsReadBack groups }
        ensures sent { (groups : List (List ℕ)) → AreSent groups → IsReadBack groups }
    {}
}

/// The groups of a `Params`, in order.
#[derive(Drop)]
pub struct ParamsIter<'a> {
    /// All fields.
    numbers: &'a [u16],
    /// Bit i is set exactly if a group begins at field i.
    starts: u32,
    /// The field where the next group begins.
    place: usize,
    ghost in_range: { length numbers.now ≤ max_fields },
    ghost none_above: { starts < 2 ^ length numbers.now },
    ghost place_within: { place ≤ length numbers.now },
    ghost place_starts: { place < length numbers.now → starts / 2 ^ place % 2 ≡ 1 },
}

impl<'a> Iterator for ParamsIter<'a> {
    type Item = &'a [u16];

    ghost use Rattle.anstyle_parse.specs.Views.Params.{groups_left};

    ghost next_gives = { YieldsFirstBy (λ x. x.now) groups_left };

    ghost remaining = { item_count groups_left };

    /// The next group, or nothing where none is left: after the last group every further
    /// call answers nothing.
    fn next(&mut self) -> Option<&'a [u16]> {
        let (_, rest) = self.numbers.split_at(self.place);
        let (_, others) = rest.split_first()?;
        // The group goes on to where another one begins, or to the last field.
        let starts = self.starts >> self.place >> 1;
        let more = (starts.trailing_zeros() as usize).min(others.len());
        let (group, _) = rest.split_at(1 + more);
        self.place += group.len();
        Some(group)
    }

    /// Exactly how many groups are left, twice.
    fn size_hint(&self) -> (usize, Option<usize>)
        ensures exact { result ≡ (length (groups_left self.now), Some (length (groups_left self.now))) }
        ensures lower { IsWithinCount result.0 (item_count groups_left self.now) }
        ensures upper { IfSome result.1 (UpTo (item_count groups_left self.now)) }
    {
        let left = self.len();
        (left, Some(left))
    }
}

impl<'a> ExactSizeIterator for ParamsIter<'a> {
    ghost use Rattle.anstyle_parse.specs.Views.Params.{groups_left};

    /// How many groups are left.
    fn len(&self) -> usize {
        if self.place < MAX_PARAMS {
            (self.starts >> self.place).count_ones() as usize
        } else {
            0
        }
    }
}

/// After the last group every `next` answers nothing.
impl<'a> FusedIterator for ParamsIter<'a> {}

impl<'a> IntoIterator for &'a Params {
    type Item = &'a [u16];

    type IntoIter = ParamsIter<'a>;

    ghost use Rattle.anstyle_parse.specs.Stream.Groups.{HaveFields};
    ghost use Rattle.anstyle_parse.specs.Views.Params.{groups_shown, groups_left, AreFew};

    ghost into_iter_gives = { λ params iter. (groups_left iter ≡ groups_shown params.now)
        × HaveFields (groups_shown params.now) × AreFew (groups_shown params.now) };

    /// The groups in order, as `iter` gives them.
    fn into_iter(self) -> ParamsIter<'a> {
        self.iter()
    }
}

impl<'a> ParamsIter<'a> {
    ghost use Rattle.anstyle_parse.specs.Views.Params.{groups_left};
    ghost use Rattle.anstyle_parse.specs.Stream.Groups.{groups_text};

    /// Writes the groups that are left, with `;` between them.
    fn write_texts<W: fmt::Write>(mut self, f: &mut fmt::Formatter<W>) -> fmt::Result
        ensures { WritesOnOk W.write_str_gives f.old result (groups_text (groups_left self.entry)) f.new }
    {
        if let Some(first) = self.next() {
            write_group(f, first)?;
            for group in self {
                f.write_str(";")?;
                write_group(f, group)?;
            }
        }
        Ok(())
    }
}

/// The bit of a field among the starts.
fn start_bit(field: usize) -> u32
    requires { field < max_fields }
    ensures { result ≡ 2 ^ field }
{
    1 << field
}

/// Writes the fields of a group in decimal, with `:` between them.
fn write_group<W: fmt::Write>(f: &mut fmt::Formatter<W>, group: &[u16]) -> fmt::Result
    ensures { WritesOnOk W.write_str_gives f.old result (fields_text group.now) f.new }
{
    if let Some((first, others)) = group.split_first() {
        write!(f, "{first}")?;
        for field in others {
            write!(f, ":{field}")?;
        }
    }
    Ok(())
}
