// The refusals: one case for each numbered fault of the rules, holding the place where it was found.
#![tactic(auto)]

ghost use Rattle.std.specs.Prelude.{◌≡◌};
ghost use Rattle.refusal.specs.Refusal.{number_of, place_of};

// Why an input was refused. What a place counts is said at the call that gives it: a byte offset in a file, a listing position
// in memory, an index, or a count.
#[derive(Clone, Copy)]
pub enum Refusal {
    // 1: a field of which the file has not all bytes.
    PastEnd(usize),
    // 2: a tag in a place where it may not be, or a request file that ends before it has a band and a link; in memory: no link.
    WrongTag(usize),
    // 3: a field's length is not one of its tag's; in memory: a route of no or too many links.
    WrongLength(usize),
    // 4: a number of the band is outside its range.
    BandOutside(usize),
    // 5: one link too many, or a link that ends where it begins.
    BadLink(usize),
    // 6: one demand too many.
    TooManyDemands(usize),
    // 7: a route that breaks, or has a link that is not listed or stands in it twice.
    BadRoute(usize),
    // 8: an ident that an earlier demand has.
    IdentUsed(usize),
    // 9: a width of 0 or above the slot count.
    BadWidth(usize),
    // 10: a lent result buffer is too short; the place is how many entries it needs.
    BufferShort(usize),
    // 11: more demands than a search takes; the place is how many there are.
    TooManyToSearch(usize),
    // 12: not an order of the demands.
    NotAnOrder(usize),
    // 13: first fit has no start for a demand; the place is its listing position.
    NoStart(usize),
    // 14: a plan row whose ident no demand has.
    UnknownIdent(usize),
    // 15: a plan row whose ident an earlier row has.
    IdentSeen(usize),
    // 16: a demand that has no start.
    NoRow(usize),
    // 17: an end above the slot count.
    EndAbove(usize),
    // 18: two demands with a link in common stand too close.
    Clash(usize),
    // 19: these grid numbers belong to no block inside the band.
    NoBlock(usize),
    // 20: a file above its limit; the place is the limit.
    FileTooLong(usize),
    // 21: a bit rate that is not in the table.
    UnknownRate(usize),
    // 24: so many groups cannot be made: none, more than 8, or more than there are demands; the place is how many.
    GroupsOutside(usize),
    // 30: a certificate that is none; the place is a demand that weighs too much, or how many demands there are.
    NoCertificate(usize),
}

impl Refusal {
    // The fault's number, 1 to 21, 24 and 30.
    pub fn number(self) -> u8
        ensures { result ≡ number_of self }
    {
        match self {
            Refusal::PastEnd(_) => 1,
            Refusal::WrongTag(_) => 2,
            Refusal::WrongLength(_) => 3,
            Refusal::BandOutside(_) => 4,
            Refusal::BadLink(_) => 5,
            Refusal::TooManyDemands(_) => 6,
            Refusal::BadRoute(_) => 7,
            Refusal::IdentUsed(_) => 8,
            Refusal::BadWidth(_) => 9,
            Refusal::BufferShort(_) => 10,
            Refusal::TooManyToSearch(_) => 11,
            Refusal::NotAnOrder(_) => 12,
            Refusal::NoStart(_) => 13,
            Refusal::UnknownIdent(_) => 14,
            Refusal::IdentSeen(_) => 15,
            Refusal::NoRow(_) => 16,
            Refusal::EndAbove(_) => 17,
            Refusal::Clash(_) => 18,
            Refusal::NoBlock(_) => 19,
            Refusal::FileTooLong(_) => 20,
            Refusal::UnknownRate(_) => 21,
            Refusal::GroupsOutside(_) => 24,
            Refusal::NoCertificate(_) => 30,
        }
    }

    // Where the fault was found.
    pub fn place(self) -> usize
        ensures { result ≡ place_of self }
    {
        match self {
            Refusal::PastEnd(place)
            | Refusal::WrongTag(place)
            | Refusal::WrongLength(place)
            | Refusal::BandOutside(place)
            | Refusal::BadLink(place)
            | Refusal::TooManyDemands(place)
            | Refusal::BadRoute(place)
            | Refusal::IdentUsed(place)
            | Refusal::BadWidth(place)
            | Refusal::BufferShort(place)
            | Refusal::TooManyToSearch(place)
            | Refusal::NotAnOrder(place)
            | Refusal::NoStart(place)
            | Refusal::UnknownIdent(place)
            | Refusal::IdentSeen(place)
            | Refusal::NoRow(place)
            | Refusal::EndAbove(place)
            | Refusal::Clash(place)
            | Refusal::NoBlock(place)
            | Refusal::FileTooLong(place)
            | Refusal::UnknownRate(place)
            | Refusal::GroupsOutside(place)
            | Refusal::NoCertificate(place) => place,
        }
    }
}
