// Why a read is refused, and where: the line layer knows the refusal and its line, the text layer adds the kind of text, the site layer the host.
ghost use Rattle.std.specs.Prelude.{◌≡◌};
ghost use Rattle.reading.specs.declared.fault.Refusal.TheVariants.{Full};
ghost use Rattle.reading.specs.Faults.{refusal_number, kind_number, tagged, fault, in_text, at_host};

#[derive(Clone, Copy, Debug, PartialEq, Eq)]
pub enum Refusal {
    // the text has more than 8,192 bytes
    TooLong = 2,
    // fields missing, too many or doubled
    Fields = 3,
    BadNumber = 4,
    // a bad name or path
    BadName = 5,
    // given before
    Given = 6,
    // no such host, account, member, server or directory
    Unknown = 7,
    // the table is full
    Full = 8,
    // out of turn, or read twice
    OutOfTurn = 9,
    // a form that is not covered
    NotCovered = 10,
    // a text that was not read
    Unread = 11,
}

impl Refusal {
    // The number of a refusal, as it is printed.
    pub fn number(self) -> u8
        ensures { result ≡ refusal_number self }
    {
        self as u8
    }
}

// A table has no room for an entry more.
impl From<bounded::Full> for Refusal {
    ghost from_gives = { λ _ r. r ≡ Full };

    fn from(_full: bounded::Full) -> Refusal {
        Refusal::Full
    }
}

// The kinds of texts.
#[derive(Clone, Copy, Debug, PartialEq, Eq)]
pub enum Kind {
    Hosts,
    Passwd,
    Group,
    Mtree,
    Equiv,
    Ypconf,
    Rhosts,
}

impl Kind {
    // The number of a kind, as it is printed.
    pub fn number(self) -> u8
        ensures { result ≡ kind_number self }
    {
        self as u8
    }
}

// A number that no kind of text has.
#[derive(Clone, Copy, Debug, PartialEq, Eq)]
pub struct NoKind;

impl TryFrom<u32> for Kind {
    type Error = NoKind;

    ghost use Rattle.reading.specs.Kinds.{KindNumbered};

    ghost try_from_gives = { KindNumbered };

    fn try_from(n: u32) -> Result<Kind, NoKind> {
        match n {
            0 => Ok(Kind::Hosts),
            1 => Ok(Kind::Passwd),
            2 => Ok(Kind::Group),
            3 => Ok(Kind::Mtree),
            4 => Ok(Kind::Equiv),
            5 => Ok(Kind::Ypconf),
            6 => Ok(Kind::Rhosts),
            _ => Err(NoKind),
        }
    }
}

// A refusal and its line, counted from 1; 0 where there is none, which is what is printed there: an Option would only be turned into that number.
#[derive(Clone, Copy, Debug, PartialEq, Eq)]
pub struct LineFault {
    pub refusal: Refusal,
    pub line: u32,
}

#[derive(Clone, Copy, Debug, PartialEq, Eq)]
pub struct TextFault {
    pub kind: Kind,
    pub fault: LineFault,
}

#[derive(Clone, Copy, Debug, PartialEq, Eq)]
pub struct SiteFault {
    pub host: u8,
    pub fault: TextFault,
}

impl From<(u32, Refusal)> for LineFault {
    ghost from_gives = { λ p r. r ≡ fault p.1 p.0 };

    fn from(p: (u32, Refusal)) -> LineFault {
        LineFault {
            refusal: p.1,
            line: p.0,
        }
    }
}

impl From<(Kind, LineFault)> for TextFault {
    ghost from_gives = { λ p r. r ≡ in_text p.0 p.1 };

    fn from(p: (Kind, LineFault)) -> TextFault {
        TextFault {
            kind: p.0,
            fault: p.1,
        }
    }
}

impl From<(u8, TextFault)> for SiteFault {
    ghost from_gives = { λ p r. r ≡ at_host p.0 p.1 };

    fn from(p: (u8, TextFault)) -> SiteFault {
        SiteFault {
            host: p.0,
            fault: p.1,
        }
    }
}

impl TextFault {
    // The fault of a text as a whole, which has no line.
    pub fn of_text(kind: Kind, refusal: Refusal) -> TextFault
        ensures { result ≡ in_text kind (fault refusal 0) }
    {
        TextFault::from((kind, LineFault::from((0, refusal))))
    }
}

// What failed, with the place where it did, by one name at each `?` in place of a closure: `at(kind, ..)?` makes a text's fault of a line's, `at(host, ..)?` a site's of a text's.
pub fn at<P: Drop, T, E>(place: P, r: Result<T, E>) -> Result<T, (P, E)>
    ensures { result ≡ tagged place r }
{
    r.map_err(|e| (place, e))
}
