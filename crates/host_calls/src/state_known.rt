//! What a call keeps of the keys that it was granted: which it has seen present, where they are mapped, and its locks.

ghost use Rattle.std.specs.Prelude.{◌≡◌, ℕ, ◌<◌, ◌≤◌, All, [], IsTrue, is_some, slice_set};
ghost use Rattle.faaslet_meaning.specs.CallState.{State, without_lock};
ghost use Rattle.faaslet_meaning.specs.Checks.{holds};
ghost use Rattle.faaslet_meaning.specs.Call.{locks_from};
ghost use Rattle.host_calls.specs.Known.{kept, is_held, with_lock, nothing_known, put_at, seen_at, mapped_at, locked_at, unlocked_at, locks_kept, first_lock, tier_named, tier_of, lock_of, Keeps, KeepsOf};

/// How many grants a function has at most.
const PLACE_LIMIT: usize = 32;

/// The replica of a key, or its global value.
#[derive(Clone, Copy, Debug, PartialEq, Eq)]
pub enum Tier {
    Local,
    Global,
}

/// What is kept of the key at one place of the grants.
#[derive(Clone, Copy)]
pub struct PlaceKnown {
    /// It was seen present.
    pub present: bool,
    /// Its first address, where it is mapped.
    pub address: Option<u32>,
    /// The call holds a lock on its replica.
    pub local: bool,
    /// The call holds a lock on its global value.
    pub global: bool,
}

/// What a call keeps of each place of its grants, and how many mappings and locks it has.
#[derive(Clone, Copy)]
pub struct Known {
    places: [PlaceKnown; PLACE_LIMIT],
    mappings: u32,
    locks: u32,
}

const UNKNOWN: PlaceKnown = PlaceKnown {
    present: false,
    address: None,
    local: false,
    global: false,
};

impl Tier {
    fn named(is_local: bool) -> Tier
        ensures { result ≡ tier_named is_local }
    {
        if is_local { Tier::Local } else { Tier::Global }
    }
}

impl PlaceKnown {
    /// It is mapped.
    pub fn is_mapped(self) -> bool
        ensures { result ≡ is_some self.address }
    {
        self.address.is_some()
    }

    /// The call holds a lock on it in this tier.
    pub fn holds(self, tier: Tier) -> bool
        ensures { result ≡ is_held self tier }
    {
        match tier {
            Tier::Local => self.local,
            Tier::Global => self.global,
        }
    }

    fn with_lock(self, tier: Tier, held: bool) -> PlaceKnown
        ensures { result ≡ with_lock tier held self }
    {
        match tier {
            Tier::Local => PlaceKnown {
                local: held,
                ..self
            },
            Tier::Global => PlaceKnown {
                global: held,
                ..self
            },
        }
    }
}

impl Known {
    /// Nothing.
    pub fn new() -> Known
        ensures nothing { result ≡ nothing_known }
        ensures keeps { Keeps result [] [] [] }
    {
        Known {
            places: [UNKNOWN; PLACE_LIMIT],
            mappings: 0,
            locks: 0,
        }
    }

    /// Nothing any more.
    pub fn clear(&mut self)
        ensures nothing { self.new ≡ nothing_known }
        ensures keeps { Keeps self.new [] [] [] }
    {
        *self = Known::new();
    }

    /// What is kept of a place; nothing of one past the last.
    pub fn at(&self, place: u32) -> PlaceKnown
        ensures { result ≡ kept self.now place }
    {
        match self.places.get(place as usize) {
            Some(known) => *known,
            None => UNKNOWN,
        }
    }

    /// How many places are mapped.
    pub fn mappings(&self) -> u32
        ensures { result ≡ self.now.mappings }
    {
        self.mappings
    }

    /// How many locks it holds.
    pub fn locks(&self) -> u32
        ensures { result ≡ self.now.locks }
    {
        self.locks
    }

    fn put(&mut self, place: u32, known: PlaceKnown)
        ensures { self.new ≡ put_at self.old place known }
    {
        if (place as usize) < PLACE_LIMIT {
            self.places[place as usize] = known;
        }
    }

    /// The key at a place was seen present.
    pub fn saw(&mut self, place: u32)
        ensures { self.new ≡ seen_at self.old place }
    {
        let known = self.at(place);
        self.put(
            place,
            PlaceKnown {
                present: true,
                ..known
            },
        );
    }

    /// The key at a place is mapped from an address on.
    pub(crate) fn map_at(&mut self, place: u32, address: u32)
        requires { self.old.mappings < 16 }
        ensures { self.new ≡ mapped_at self.old place address }
    {
        let known = self.at(place);
        self.put(
            place,
            PlaceKnown {
                address: Some(address),
                ..known
            },
        );
        self.mappings += 1;
    }

    /// The call holds a lock more.
    pub(crate) fn lock(&mut self, place: u32, tier: Tier)
        requires { self.old.locks < 16 }
        ensures { self.new ≡ locked_at self.old place tier }
    {
        let known = self.at(place).with_lock(tier, true);
        self.put(place, known);
        self.locks += 1;
    }

    pub(crate) fn unlock(&mut self, place: u32, tier: Tier)
        ensures { self.new ≡ unlocked_at self.old place tier }
    {
        let known = self.at(place).with_lock(tier, false);
        self.put(place, known);
        self.locks = self.locks.saturating_sub(1);
    }

    /// A lock was released, the local one of a place or the global one; all else is left.
    pub fn unlocked(&mut self, place: u32, local: bool)
        ensures only { self.new ≡ unlocked_at self.old place (tier_named local) }
        ensures keeps { (s : State) → KeepsOf self.old s → place < 32 → IsTrue (holds s (tier_of (tier_named local)) place)
            → KeepsOf self.new (without_lock s (lock_of (tier_named local) place)) }
    {
        let tier = Tier::named(local);
        self.unlock(place, tier);
    }

    fn first_lock(&self) -> Option<(u32, bool)>
        ensures { result ≡ first_lock (locks_kept self.now.places 0) }
    {
        'places: for place in 0..32u32 {
            let known = self.places[place as usize];
            if known.local {
                return Some((place, true));
            }
            if known.global {
                return Some((place, false));
            }
        }
        None
    }

    /// The lock that is to be released first, by its place, and whether it is the local one: the places in their order, and of
    /// one place the local one first. `None` where no lock is held.
    pub fn next_lock(&self) -> Option<(u32, bool)>
        ensures first { result ≡ first_lock (locks_kept self.now.places 0) }
        ensures released { (s : State) (n : ℕ) → KeepsOf self.now s → n ≤ 32 → All (λ l. l.place < n) s.locks
            → result ≡ first_lock (locks_from s n 0) }
    {
        self.first_lock()
    }
}
