//! Elements of a record, compared in place and passed.
ghost use Rattle.std.specs.Prelude.{◌≡◌, ◌≤◌, Some};
ghost use Rattle.std.specs.Bool.{Decides};
ghost use Rattle.std.specs.Str.{bytes_eq};
ghost use Rattle.holder.specs.Placed.{run_at, octets_of, Stands, IsAtom};
ghost use Rattle.holder.specs.Walks.{first_of};
ghost use Rattle.rules.specs.Bindings.{width};
ghost use Rattle.fitting.specs.Cursors.{elements_from, Lies, front, Passes, PassesRun};

use holder::holding::Holder;
use holder::kinds::Kind;

/// Whether an atom has these octets.
pub(crate) fn has_octets<H: Holder>(holder: &H, place: u32, octets: &[u8]) -> bool
    requires { IsAtom (run_at place (H.meaning holder.now).tree) }
    ensures { result ≡ bytes_eq (octets_of (run_at place (H.meaning holder.now).tree)) octets.now }
{
    if holder.length_at(place) != octets.len() {
        return false;
    }
    for (index, octet) in octets.iter().enumerate() {
        if holder.octet_at(place, index) != *octet {
            return false;
        }
    }
    true
}

// Whether two atoms have the same octets.
fn are_same_atoms<H: Holder>(holder: &H, one: u32, other: u32) -> bool
    requires one { IsAtom (run_at one (H.meaning holder.now).tree) }
    requires other { IsAtom (run_at other (H.meaning holder.now).tree) }
    ensures { let tree = (H.meaning holder.now).tree in
        result ≡ bytes_eq (octets_of (run_at one tree)) (octets_of (run_at other tree)) }
{
    let length = holder.length_at(one);
    if length != holder.length_at(other) {
        return false;
    }
    for index in 0..length {
        if holder.octet_at(one, index) != holder.octet_at(other, index) {
            return false;
        }
    }
    true
}

// Whether two elements are the same. The elements of lists are compared by a loop.
fn are_same<H: Holder>(holder: &H, one: u32, other: u32) -> bool
    requires one { Stands (run_at one (H.meaning holder.now).tree) }
    requires other { Stands (run_at other (H.meaning holder.now).tree) }
    ensures { let tree = (H.meaning holder.now).tree in
        Decides result (first_of (run_at one tree) ≡ first_of (run_at other tree)) }
{
    match holder.kind_at(one) {
        Kind::Atom => holder.kind_at(other) == Kind::Atom && are_same_atoms(holder, one, other),
        Kind::List => {
            if holder.kind_at(other) == Kind::Atom {
                return false;
            }
            let mut ones = holder.first_in(one);
            let mut others = holder.first_in(other);
            while let Some(one) = ones {
                let Some(other) = others else {
                    return false;
                };
                if !are_same(holder, one, other) {
                    return false;
                }
                ones = holder.next_after(one);
                others = holder.next_after(other);
            }
            others.is_none()
        }
    }
}

/// What stands behind so many elements from a place on, if there are as many.
pub(crate) fn pass<H: Holder>(holder: &H, from: Option<u32>, count: u16) -> Option<Option<u32>>
    requires { Lies (H.meaning holder.now).tree from }
    ensures { Passes (H.meaning holder.now).tree from count result }
{
    let mut at = from;
    for _ in 0..count {
        at = holder.next_after(at?);
    }
    Some(at)
}

/// What stands behind so many elements from a place on, if they are the same as those from another place on. A run of
/// no element may be at any place.
pub(crate) fn pass_same<H: Holder>(
    holder: &H,
    run: u32,
    count: u16,
    from: Option<u32>,
) -> Option<Option<u32>>
    requires at { Lies (H.meaning holder.now).tree from }
    requires many { count ≤ width (elements_from (H.meaning holder.now).tree (Some run)) }
    ensures { let tree = (H.meaning holder.now).tree in
        PassesRun tree from (front count (elements_from tree (Some run))) result }
{
    let mut same = Some(run);
    let mut at = from;
    for _ in 0..count {
        let one = same?;
        let other = at?;
        if !are_same(holder, one, other) {
            return None;
        }
        same = holder.next_after(one);
        at = holder.next_after(other);
    }
    Some(at)
}
