//! Where the text of a string id stands.

ghost use Rattle.std.specs.Prelude.{◌≡◌, ℕ};
ghost use Rattle.sibt_strings.specs.code.Table.{place_of, Rises};

/// The place of a string id's text: that of its first unit, in bytes from the first block.
#[derive(Clone, Copy)]
pub(crate) struct TextPlace {
    pub(crate) id: u16,
    pub(crate) place: u32,
}

/// The place of an id's text. Where each id from 1 on has one, it is the one of that number.
pub(crate) fn place_at(places: &[TextPlace], id: u16) -> Option<u32>
    ensures { (low high : ℕ) → Rises low high places.now → result ≡ place_of places.now id }
{
    if let Some(place) = places.get(usize::from(id.saturating_sub(1))) {
        if place.id == id {
            return Some(place.place);
        }
    }
    match places.binary_search_by_key(&id, |place| place.id) {
        Ok(at) => Some(places[at].place),
        Err(_) => None,
    }
}
