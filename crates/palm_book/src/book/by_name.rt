//! Maps from names that keep the order in which the names came.
ghost use Rattle.std.specs.Prelude.{◌≡◌, ◌≢◌, ◌<◌, [], ◌∷◌, ◌++◌, length, remove, All, IfSome, IfNone, OnOk, OnErr, slice_get};

use indexmap::IndexMap;
use palm_base::NoMemory;
use palm_read::Name;

/// A value for each name, in the order in which the names came.
pub(crate) type ByName<V> = IndexMap<Name, V>;

/// The place of a name.
pub(crate) fn place_of_name<V>(entries: &ByName<V>, name: &Name) -> Option<usize>
    ensures found { IfSome result (λ place. IfSome (slice_get entries.now.entries place) (λ e. e.0 ≡ name.now) × (place < length entries.now.entries)) }
    ensures none { IfNone result (All (λ e. e.0 ≢ name.now) entries.now.entries) }
{
    entries.get_index_of(name)
}

/// Adds a name behind the others, with its value.
pub(crate) fn push_name<V: Drop>(
    entries: &mut ByName<V>,
    name: Name,
    value: V,
) -> Result<(), NoMemory>
    requires { All (λ e. e.0 ≢ name) entries.old.entries }
    ensures ok { OnOk result (entries.new.entries ≡ entries.old.entries ++ (name, value) ∷ []) }
    ensures err { OnErr result (entries.new.entries ≡ entries.old.entries) }
{
    entries.insert(name, value)?;
    Ok(())
}

/// The name at a place.
pub(crate) fn name_at<V>(entries: &ByName<V>, place: usize) -> &Name
    requires { place < length entries.now.entries }
    ensures { IfSome (slice_get entries.now.entries place) (λ e. e.0 ≡ result.now) }
{
    let names = entries.keys().as_slice();
    &names[place]
}

/// The value at a place.
pub(crate) fn value_at<V>(entries: &ByName<V>, place: usize) -> &V
    requires { place < length entries.now.entries }
    ensures { IfSome (slice_get entries.now.entries place) (λ e. e.1 ≡ result.now) }
{
    &entries[place]
}

/// Takes the name at a place out with its value; the others keep their order.
pub(crate) fn remove_at<V: Drop>(entries: &mut ByName<V>, place: usize)
    requires { place < length entries.old.entries }
    ensures { entries.new.entries ≡ remove entries.old.entries place }
{
    entries.shift_remove_index(place);
}
