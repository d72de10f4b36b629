//! Names of rings.

ghost use Rattle.std.specs.Prelude.{◌≡◌, false, true, Some, IfSome, IfNone, if◌then◌else◌};
ghost use Rattle.triangle_edits.specs.Links.{is_shared};
ghost use Rattle.oemm_lists.specs.Numbers.{among};
ghost use Rattle.link_test.specs.Links.{follows, lesser, IsLeastPassing};

use mesh_data::Name;

/// The name that follows v in the closed ring of these names, if v is one of them.
pub(crate) fn name_after(ring: &[Name], v: Name) -> Option<Name>
    ensures found { IfSome result (λ w. follows ring.now v w ≡ true) }
    ensures none { IfNone result (among v ring.now ≡ false) }
{
    let mut before = *ring.last()?;
    for name in ring {
        if before == v {
            return Some(*name);
        }
        before = *name;
    }
    None
}

/// The name that v follows in the closed ring of these names, if v is one of them.
pub(crate) fn name_before(ring: &[Name], v: Name) -> Option<Name>
    ensures found { IfSome result (λ w. follows ring.now w v ≡ true) }
    ensures none { IfNone result (among v ring.now ≡ false) }
{
    let mut before = *ring.last()?;
    for name in ring {
        if *name == v {
            return Some(before);
        }
        before = *name;
    }
    None
}

/// Whether w is one of the names, and neither of the two that may stand opposite.
fn is_shared(names: &[Name], one: &Option<Name>, other: &Option<Name>, w: Name) -> bool
    ensures { result ≡ is_shared names.now one.now other.now w }
{
    names.contains(&w) && *one != Some(w) && *other != Some(w)
}

/// The lesser of a name, if there is one, and another.
fn lesser(least: Option<Name>, w: Name) -> Name
    ensures { result ≡ lesser least w }
{
    match least {
        Some(x) if x < w => x,
        _ => w,
    }
}

/// The lesser of a name, if there is one, and w, if that is one of the names and neither of the two that may stand
/// opposite.
fn lesser_shared(
    names: &[Name],
    one: &Option<Name>,
    other: &Option<Name>,
    least: Option<Name>,
    w: Name,
) -> Option<Name>
    ensures { result ≡ (if is_shared names.now one.now other.now w then Some (lesser least w) else least) }
{
    if is_shared(names, one, other, w) {
        Some(lesser(least, w))
    } else {
        least
    }
}

/// The least of these names that is one of the others too, and neither of the two that may stand opposite, if there is
/// one.
pub(crate) fn link_violation(
    names: &[Name],
    others: &[Name],
    one: &Option<Name>,
    other: &Option<Name>,
) -> Option<Name>
    ensures { IsLeastPassing (is_shared others.now one.now other.now) names.now result }
{
    let mut least = None;
    for w in names {
        least = lesser_shared(others, one, other, least, *w);
    }
    least
}
