// The numbers in a record's bytes, at proved places: none is read with a test of its own.
ghost use Rattle.std.specs.Prelude.{◌≡◌, ◌+◌, ◌*◌, ◌≤◌, length, drop};
ghost use Rattle.ticket_kinds.specs.Kinds.{kind_number, field_count, numbers_in};
ghost use Rattle.ticket_card.specs.Card.{record_length, fields_in, length_in, kind_in};

use ticket_kinds::kind::Kind;
use ticket_kinds::numbers::Numbers;

// The length that a record tells of itself.
#[tactic(auto, using(wire::specs::Read::chunk_in))]
pub(crate) fn length_in(src: &[u8]) -> u64
    requires { 6 ≤ length src.now }
    ensures { result ≡ length_in src.now }
{
    u64::from(wire::number_in_four(&src.as_chunks::<4>().0[0]))
}

// Its kind, by number.
#[tactic(auto, using(crate::specs::Places::kind_place))]
pub(crate) fn kind_in(src: &[u8]) -> u64
    requires { 6 ≤ length src.now }
    ensures { result ≡ kind_in src.now }
{
    wire::join_four(src[4], src[5], 0, 0) as u64
}

// The numbers of a record of a kind.
#[tactic(auto, using(ticket_kinds::specs::KindsLaws::least_fields), unfolding(ticket_kinds::specs::Kinds::field_count, crate::specs::Card::fields_in))]
pub(crate) fn numbers_in(src: &[u8], kind: Kind) -> Numbers
    requires { record_length (field_count (kind_number kind)) ≤ length src.now }
    ensures { result ≡ numbers_in (kind_number kind) (fields_in (field_count (kind_number kind)) (drop 6 src.now)) }
{
    let words = src[6..].as_chunks::<8>().0;
    let two = Numbers {
        kind: u64::from(kind),
        first: wire::number_in(&words[0]),
        second: wire::number_in(&words[1]),
        ..Numbers::default()
    };
    match kind {
        Kind::Halfband => two,
        Kind::Gaussian | Kind::Rrc => Numbers {
            third: wire::number_in(&words[2]),
            ..two
        },
        Kind::Lowpass | Kind::Spec | Kind::Channelizer => Numbers {
            third: wire::number_in(&words[2]),
            fourth: wire::number_in(&words[3]),
            fifth: wire::number_in(&words[4]),
            ..two
        },
    }
}
