// What comes of a ticket: done or refused, why it is refused by number, and what the caller hears of it. Every crate
// that judges something rests on these words. No function here has a `requires`.
#![tactic(auto)]

ghost use Rattle.std.specs.Prelude.{◌≡◌};
ghost use Rattle.laws.specs.Binary64.{whole};
ghost use Rattle.verdict.specs.Report.{told, number_of, report_of, accepted_of};
ghost use Rattle.verdict.specs.Reports.{length_report, judged_report};

// Why a ticket is refused, by the number that C knows; the numbers of the other shapes of a refusal are told apart by
// the shape. Caused by the ticket's author, but for the last four.
#[derive(Clone, Copy, PartialEq, Eq)]
pub enum Reason {
    // The rate.
    Rate = 1,
    // The cutoff, the centre or a band edge.
    Frequency = 2,
    // The transition, or a length past 2^24 taps.
    Transition = 3,
    // The attenuation or beta.
    Attenuation = 4,
    // The bandwidth bt, the roll-off, the quality q or the time constant.
    Shape = 5,
    // A count: taps, order, span, samples, channels or branch.
    Count = 6,
    // An unknown code, or a response that a Butterworth filter hasn't.
    Code = 7,
    // How many coefficients of a window.
    CoefficientCount = 17,
    // A coefficient of a window.
    Coefficient = 18,
    // The sum of a window's coefficients.
    CoefficientSum = 19,
    // Caused by arithmetic: the sum that the taps are divided by is 0 or not finite.
    Divisor = 10,
    // A Bessel series that hasn't settled.
    Unsettled = 16,
    // Caused by the card: the bytes end inside a record.
    CutShort = 12,
    // A kind that no ticket has.
    Kind = 13,
    // The length of a record, where it isn't its kind's.
    RecordLength = 14,
}

// The numbers of the other shapes. Caused by the host program: the buffer's length.
pub const BAD_LENGTH: u32 = 8;
// More taps than the cap.
pub const TOO_MANY_TAPS: u32 = 9;
// An element that Q15 or Q14 can't take.
pub const BAD_ELEMENT: u32 = 11;

impl From<Reason> for u32 {
    ghost from_gives = { λ reason number. number ≡ number_of reason };

    fn from(reason: Reason) -> u32 {
        reason as u32
    }
}

// A refusal: a shape with its reason, so that a new number needs no new shape.
#[derive(Clone, Copy)]
pub enum Refusal {
    // The number alone.
    Plain(Reason),
    // A value out of range: why; smallest, largest and offered value.
    Range(Reason, f64, f64, f64),
    // 8: a buffer's length, expected and offered.
    Length(u64, u64),
    // 9: more taps than the cap: how many, and the cap.
    Cap(u64, u64),
    // 11: an element that a conversion can't take: its index; smallest, largest and offered value.
    Element(u64, f64, f64, f64),
}

// What a design is judged to be without its buffer: how many taps, and what they are divided by last.
#[derive(Clone, Copy)]
pub struct Judged {
    pub taps: u64,
    pub divisor: f64,
}

// What an export answers, for acceptance and refusal alike; a field that does not apply is 0.
#[repr(C)]
#[derive(Clone, Copy)]
pub struct Report {
    // 0 where the ticket is accepted, else the refusal's number.
    pub number: u32,
    // What the refusal carries: 0 nothing, 1 a range, 2 a length, 3 a cap and its range, 4 an element and its range.
    pub carries: u32,
    pub smallest: f64,
    pub largest: f64,
    pub offered: f64,
    // The length or the number of taps that was expected, and the length or the cap that was given.
    pub expected: u64,
    pub given: u64,
    // The element's index.
    pub index: u64,
    // The results, where accepted; a series has them also where it is refused.
    pub count: u64,
    pub value: f64,
}

// Nothing is told yet.
const NOTHING: Report = Report {
    number: 0,
    carries: 0,
    smallest: 0.0,
    largest: 0.0,
    offered: 0.0,
    expected: 0,
    given: 0,
    index: 0,
    count: 0,
    value: 0.0,
};

impl Report {
    // What is told of an accepted ticket: its count and its value.
    pub fn accepted(count: u64, value: f64) -> Report
        ensures { result ≡ accepted_of count value }
    {
        Report {
            count,
            value,
            ..NOTHING
        }
    }

    // What is told of a refusal by its number alone, whichever that is.
    pub fn refused(number: u32) -> Report
        ensures { result ≡ told number 0 (whole 0) (whole 0) (whole 0) 0 0 0 }
    {
        Report { number, ..NOTHING }
    }

    // What is told of a value out of range: a number, whichever that is; smallest, largest and offered value.
    pub fn out_of_range(number: u32, smallest: f64, largest: f64, offered: f64) -> Report
        ensures { result ≡ told number 1 smallest largest offered 0 0 0 }
    {
        Report {
            number,
            carries: 1,
            smallest,
            largest,
            offered,
            ..NOTHING
        }
    }
}

// What is told of a refusal.
impl From<Refusal> for Report {
    ghost from_gives = { λ why report. report ≡ report_of why };

    fn from(why: Refusal) -> Report {
        match why {
            Refusal::Plain(reason) => Report::refused(u32::from(reason)),
            Refusal::Range(reason, smallest, largest, offered) => {
                Report::out_of_range(u32::from(reason), smallest, largest, offered)
            }
            Refusal::Length(expected, given) => Report {
                number: BAD_LENGTH,
                carries: 2,
                expected,
                given,
                ..NOTHING
            },
            Refusal::Cap(n, cap) => Report {
                number: TOO_MANY_TAPS,
                carries: 3,
                smallest: std::num::nearest_u64_to_f64(n),
                largest: 16777216.0,
                offered: std::num::nearest_u64_to_f64(cap),
                expected: n,
                given: cap,
                ..NOTHING
            },
            Refusal::Element(index, smallest, largest, offered) => Report {
                number: BAD_ELEMENT,
                carries: 4,
                smallest,
                largest,
                offered,
                index,
                ..NOTHING
            },
        }
    }
}

// What is told of a number of taps, as the count.
impl From<Result<u64, Refusal>> for Report {
    ghost from_gives = { λ length report. report ≡ length_report length };

    // Inlined, as the next: an export that tells nothing else has then no call, and no report of its own to copy.
    #[inline(always)]
    fn from(length: Result<u64, Refusal>) -> Report {
        match length {
            Ok(n) => Report::accepted(n, 0.0),
            Err(why) => Report::from(why),
        }
    }
}

// What is told of a judgement: the taps as the count, their divisor as the value.
impl From<Result<Judged, Refusal>> for Report {
    ghost from_gives = { λ judged report. report ≡ judged_report judged };

    #[inline(always)]
    fn from(judged: Result<Judged, Refusal>) -> Report {
        match judged {
            Ok(j) => Report::accepted(j.taps, j.divisor),
            Err(why) => Report::from(why),
        }
    }
}
