// The proxy filter: an accept list or a reject list of at most 16 addresses.
#![tactic(auto)]

ghost use Rattle.std.specs.Prelude.{◌≡◌, true, ◌++◌, ◌∷◌, [], suc, ◌<◌, take, drop};
ghost use Rattle.filter_entries.specs.Entries.{unused, find};
ghost use Rattle.filter_entries.specs.Changes.{appended, without, changed, changed_all};
ghost use Rattle.proxy_filter.specs.Filters.{held, holding, is_good};
ghost use Rattle.proxy_filter.specs.Calls.{new, addresses, change_for, is_unicast, reporting, refusing, controlled, learned, passing, pass_answer};

use filter_entries::find_from;
use filter_messages::{Change, FilterRefusal, FilterType, Request, Status, request_of};
use octets::read16;

// The addresses are the first count entries, in order of adding; the others are 0x0000.
// Stays a count beside an array: a count over 16 and a used place past it are states that refusal 14 tells.
#[derive(Clone, Copy)]
pub struct Filter {
    pub kind: FilterType,
    pub count: u8,
    pub entries: [u16; 16],
}

// The filter after a call, and the call's answer.
// A record of its own, as each call's: one generic record of a state and an answer would call it by one name with all others, and be no plainer.
#[derive(Clone, Copy)]
pub struct FilterStep {
    pub filter: Filter,
    pub answer: Result<Status, FilterRefusal>,
}

// The entries with the one at a place taken out, those after it moved down by one, and the last place not in use.
// Never inlined: with this copy in it, the compiler does not take `change_one` into the loop over a message's addresses, and a message of 16 takes up to 2.1
// times as long.
#[inline(never)]
fn close_place(mut entries: [u16; 16], at: usize) -> [u16; 16]
    requires { at < 16 }
    ensures { result ≡ take at entries ++ drop (suc at) entries ++ (unused ∷ []) }
{
    entries.copy_within(at + 1.., at);
    entries[15] = 0;
    entries
}

// What is done with a source address.
fn change_for(kind: FilterType) -> Change
    ensures { result ≡ change_for kind }
{
    match kind {
        FilterType::AcceptList => Change::Add,
        FilterType::RejectList => Change::Remove,
    }
}

// Whether an address is one that a source address can be.
fn is_unicast(address: u16) -> bool
    ensures { result ≡ is_unicast address }
{
    (0x0001..=0x7FFF).contains(&address)
}

// The pass decision, by the place at which the destination was found.
fn pass_answer(kind: FilterType, place: Option<usize>) -> bool
    ensures { result ≡ pass_answer kind place }
{
    match kind {
        FilterType::AcceptList => place.is_some(),
        FilterType::RejectList => place.is_none(),
    }
}

impl Filter {
    // An empty filter of a type.
    fn empty(kind: FilterType) -> Self
        ensures { result ≡ holding kind [] }
    {
        Filter {
            kind,
            count: 0,
            entries: [0; 16],
        }
    }

    // The filter of a new connection: an empty accept list.
    pub fn new() -> Self
        ensures { result ≡ new }
    {
        Filter::empty(FilterType::AcceptList)
    }

    // Whether the filter isn't bad.
    fn is_good(self) -> bool
        ensures { result ≡ is_good self }
    {
        filter_entries::is_good(self.entries, self.count as usize)
    }

    // That the filter is good stays a `requires` from here on: a `Filter` has to be able to be bad, so an invariant would want a second type round it,
    // and each call of these five would wrap and unwrap it.

    // The lookup: the place of an address among those held.
    fn find(self, address: u16) -> Option<usize>
        requires { is_good self ≡ true }
        ensures { result ≡ find (held self) address }
    {
        find_from(&self.entries[..self.count as usize], 0, address)
    }

    // An address is put after the others, if there is room.
    fn append(mut self, address: u16) -> Self
        requires { is_good self ≡ true }
        ensures { result ≡ holding self.kind (appended (held self) address) }
    {
        let count = self.count as usize;
        if 16 <= count {
            return self;
        }
        self.entries[count] = address;
        self.count += 1;
        self
    }

    // The address at a place is taken out.
    fn remove_at(mut self, at: usize) -> Self
        requires { (is_good self ≡ true) × (at < self.count) }
        ensures { result ≡ holding self.kind (without (held self) at) }
    {
        self.entries = close_place(self.entries, at);
        self.count -= 1;
        self
    }

    // An address is added or removed, or skipped.
    fn change_one(self, change: Change, address: u16) -> Self
        requires { is_good self ≡ true }
        ensures { result ≡ holding self.kind (changed change (held self) address) }
    {
        if address == 0 {
            return self;
        }
        match (change, self.find(address)) {
            (Change::Add, None) => self.append(address),
            (Change::Remove, Some(at)) => self.remove_at(at),
            (Change::Add, Some(_)) | (Change::Remove, None) => self,
        }
    }

    // Each address in turn, of two octets each.
    fn change_all(mut self, change: Change, octets: &[u8]) -> Self
        requires { is_good self ≡ true }
        ensures { result ≡ holding self.kind (changed_all change (held self) (addresses octets.now)) }
    {
        for address in octets.chunks_exact(2) {
            self = self.change_one(change, read16(address, 0));
        }
        self
    }

    // The filter with its status.
    fn report(self) -> FilterStep
        ensures { result ≡ reporting self }
    {
        FilterStep {
            filter: self,
            answer: Ok(Status {
                kind: self.kind,
                count: self.count,
            }),
        }
    }

    // The filter as it was, with a refusal.
    fn refuse(self, refusal: FilterRefusal) -> FilterStep
        ensures { result ≡ refusing self refusal }
    {
        FilterStep {
            filter: self,
            answer: Err(refusal),
        }
    }

    // A filter message of any octets.
    pub fn control(self, message: &[u8]) -> FilterStep
        ensures { result ≡ controlled self message.now }
    {
        if !self.is_good() {
            return self.refuse(FilterRefusal::BadState);
        }
        match request_of(message) {
            Ok(Request::SetType(kind)) => Filter::empty(kind).report(),
            Ok(Request::Change(change)) => self.change_all(change, &message[1..]).report(),
            Err(refusal) => self.refuse(refusal),
        }
    }

    // The source address of a network message heard from the proxy client.
    pub fn learn(self, source: u16) -> FilterStep
        ensures { result ≡ learned self source }
    {
        if !self.is_good() {
            return self.refuse(FilterRefusal::BadState);
        }
        if !is_unicast(source) {
            return self.refuse(FilterRefusal::NotUnicast);
        }
        self.change_one(change_for(self.kind), source).report()
    }

    // Whether a network message with a destination address is passed on to the proxy client.
    pub fn pass(self, destination: u16) -> Result<bool, FilterRefusal>
        ensures { result ≡ passing self destination }
    {
        if !self.is_good() {
            return Err(FilterRefusal::BadState);
        }
        if destination == 0 {
            return Ok(false);
        }
        Ok(pass_answer(self.kind, self.find(destination)))
    }
}
