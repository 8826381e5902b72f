//! An index of a package: by place its forms, statements and options with what is around them, its guards, the conditions of its
//! questions, its stores, its rules and the statements that give a default, and its forms by their ids; and how its tables are
//! searched.

ghost use Rattle.std.specs.Prelude.{◌≡◌, ◌==◌, ℕ, nat_lt, filter, slice_get, IfSome, Some};
ghost use Rattle.std.specs.List.{find};
ghost use Rattle.hii_bytes.specs.code.FirstFaults.{Rise};

use hii_bytes::IdTable;

/// A form, a statement or an option. Places are in bytes from the package's header.
#[derive(Clone, Copy)]
pub struct Entry {
    pub place: u32,
    /// The number of its opcode.
    pub code: u8,
    /// The number of the innermost guard around it, if there is one.
    pub guard: Option<u32>,
    /// The place of the LOCKED that decides for it, if it is locked.
    pub lock: Option<u32>,
}

/// A guard. Its number is how many guards stand before it.
#[derive(Clone, Copy)]
pub struct GuardEntry {
    pub place: u32,
    /// The number of its opcode.
    pub code: u8,
    /// The id of the question in whose scope it stands, or 0.
    pub this: u16,
    /// The number of the innermost guard around it, if there is one.
    pub outer: Option<u32>,
    /// Where its condition ends.
    pub ends: u32,
}

/// A condition of a question. Its number is how many of them stand before it.
#[derive(Clone, Copy)]
pub struct ConditionEntry {
    pub place: u32,
    /// The number of its opcode.
    pub code: u8,
    pub number: u32,
    /// The place of what it stands in.
    pub question: u32,
    /// The id of the question in whose scope it stands, or 0.
    pub this: u16,
    /// The number of the innermost guard around it, if there is one.
    pub guard: Option<u32>,
    /// Where its expression ends.
    pub ends: u32,
}

/// The tables of a package.
pub struct Index {
    /// The forms, statements and options, by place.
    pub entries: Vec<Entry>,
    /// The guards, by place.
    pub guards: Vec<GuardEntry>,
    /// The conditions of questions, by place.
    pub conditions: Vec<ConditionEntry>,
    /// The places of the forms, by id.
    pub forms: IdTable,
    /// The places of the stores.
    pub stores: Vec<u32>,
    /// The places of the rules.
    pub rules: Vec<u32>,
    /// The places of the statements that give a default.
    pub giving: Vec<u32>,
    /// Whether it is known that no node has a fault beside the others, and that there is no rule.
    pub referred: bool,
}

impl Drop for Index {
    fn drop(self) {
        let Index {
            entries: _,
            guards: _,
            conditions: _,
            forms: _,
            stores: _,
            rules: _,
            giving: _,
            referred: _,
        } = self;
    }
}

/// The form, statement or option at a place, which is looked for first at this position.
pub fn entry_at(entries: &[Entry], place: u32, position: u32) -> Option<Entry>
    ensures { (low : ℕ) → Rise (λ (e : Entry). e.place) low entries.now
        → result ≡ find (λ e. e.place == place) entries.now }
{
    if let Some(entry) = entries.get(position as usize) {
        if entry.place == place {
            return Some(*entry);
        }
    }
    match entries.binary_search_by_key(&place, |entry| entry.place) {
        Ok(at) => Some(entries[at]),
        Err(_) => None,
    }
}

/// The forms, statements and options behind a place. What stands there is looked for first at this position.
pub fn entries_behind(entries: &[Entry], place: u32, position: u32) -> &[Entry]
    ensures { (low : ℕ) → Rise (λ (e : Entry). e.place) low entries.now
        → result.now ≡ filter (λ e. nat_lt place e.place) entries.now }
{
    let at = position as usize;
    if at < entries.len() && entries[at].place == place {
        return &entries[at + 1..];
    }
    let first = entries.partition_point(|entry| entry.place <= place);
    &entries[first..]
}

/// The guard at a place, which is looked for first at this position.
pub fn guard_at(guards: &[GuardEntry], place: u32, position: u32) -> Option<GuardEntry>
    ensures { (low : ℕ) → Rise (λ (g : GuardEntry). g.place) low guards.now
        → result ≡ find (λ g. g.place == place) guards.now }
{
    if let Some(guard) = guards.get(position as usize) {
        if guard.place == place {
            return Some(*guard);
        }
    }
    match guards.binary_search_by_key(&place, |guard| guard.place) {
        Ok(at) => Some(guards[at]),
        Err(_) => None,
    }
}

/// The condition of a question at a place, which is looked for first at this position.
pub fn condition_at(
    conditions: &[ConditionEntry],
    place: u32,
    position: u32,
) -> Option<ConditionEntry>
    ensures { (low : ℕ) → Rise (λ (c : ConditionEntry). c.place) low conditions.now
        → result ≡ find (λ c. c.place == place) conditions.now }
{
    if let Some(condition) = conditions.get(position as usize) {
        if condition.place == place {
            return Some(*condition);
        }
    }
    match conditions.binary_search_by_key(&place, |condition| condition.place) {
        Ok(at) => Some(conditions[at]),
        Err(_) => None,
    }
}

/// The conditions of questions behind a place.
pub fn conditions_behind(conditions: &[ConditionEntry], place: u32) -> &[ConditionEntry]
    ensures { (low : ℕ) → Rise (λ (c : ConditionEntry). c.place) low conditions.now
        → result.now ≡ filter (λ c. nat_lt place c.place) conditions.now }
{
    let first = conditions.partition_point(|condition| condition.place <= place);
    &conditions[first..]
}

/// The guards behind a place.
pub fn guards_behind(guards: &[GuardEntry], place: u32) -> &[GuardEntry]
    ensures { (low : ℕ) → Rise (λ (g : GuardEntry). g.place) low guards.now
        → result.now ≡ filter (λ g. nat_lt place g.place) guards.now }
{
    let first = guards.partition_point(|guard| guard.place <= place);
    &guards[first..]
}

/// How many of some places that rise stand before one of them.
pub fn number_of(places: &[u32], place: u32) -> Option<usize>
    ensures { IfSome result (λ number. slice_get places.now number ≡ Some place) }
{
    match places.binary_search(&place) {
        Ok(number) => Some(number),
        Err(_) => None,
    }
}

/// Those of some places that are behind another.
pub fn places_behind(places: &[u32], place: u32) -> &[u32]
    ensures { (low : ℕ) → Rise (λ (p : ℕ). p) low places.now
        → result.now ≡ filter (λ p. nat_lt place p) places.now }
{
    let first = places.partition_point(|one| *one <= place);
    &places[first..]
}
