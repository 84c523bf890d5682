// Interpolation: a pair of polynomials that vanishes on packets, found packet by packet.
ghost use Rattle.std.specs.Prelude.{◌≡◌, ◌+◌, ◌<◌, ◌≤◌, ◌⊎◌, length, ◌≢◌};
ghost use Rattle.linear.specs.Span.{Span};
ghost use Rattle.field.specs.Alphabet.{alphabet};
ghost use Rattle.packet.specs.Packets.{packet_rows};
ghost use Rattle.linearized.specs.Interpolation.{τ, pair_value, Interpolates, Raises, IsStart, Next};
ghost use Rattle.collector.specs.Interpolation.{room, Mixes, FirstMoves};

use crate::polynomial::Polynomial;
use crate::scalar::is_zero;
use field::{FiniteField, SymbolField};
use packet::Packet;
use std::cmp;
use std::marker::Model;
use subspace_code::parameters::Parameters;

// A polynomial in x and one in y, with the pair's weighted degree:
// a place in x counts as itself, a place in y counts k − 1 more.
#[derive(Drop)]
pub(crate) struct Pair<F: SymbolField> {
    pub(crate) x: Polynomial<F>,
    pub(crate) y: Polynomial<F>,
    degree: usize,
}

impl<F: SymbolField> Model for Pair<F> {
    ghost use Rattle.std.specs.Prelude.{◌+◌, ◌≤◌, length};
    ghost use Rattle.collector.specs.Interpolation.{Weighted};

    ghost Value = { Weighted F };

    ghost view = { λ p. record { pair = record { x = p.x; y = p.y }; degree = p.degree } };

    // No coefficient stands past the degree.
    ghost invariant = { λ p. (length p.x ≤ p.degree + 1) × (length p.y ≤ p.degree + 1) };
}

impl<F: SymbolField> Pair<F> {
    // Qx(x) + Qy(y).
    fn value(&self, packet: Packet<F>) -> F
        ensures { result ≡ pair_value (alphabet F.Scalar.FiniteField F.SymbolField) self.now.pair packet }
    {
        self.x.value(packet.x).plus(self.y.value(packet.y))
    }

    // a times this pair plus b times the other, in place of this pair.
    fn mix(&mut self, a: F, other: &Pair<F>, b: F)
        requires { (b ≡ F.FiniteField.field.zero) ⊎ (other.now.degree ≤ self.old.degree) }
        ensures mixes { Mixes (alphabet F.Scalar.FiniteField F.SymbolField) a self.old.pair b other.now.pair self.new.pair }
        ensures degree { self.new.degree ≡ self.old.degree }
    {
        self.x.mix(a, &other.x, b);
        self.y.mix(a, &other.y, b);
    }

    // raise(Q) − a Q in place of this pair Q, where a v is v raised.
    fn raise(&mut self, v: F)
        requires room { self.old.degree + 1 < room }
        requires some { v ≢ F.FiniteField.field.zero }
        ensures raises { Raises (alphabet F.Scalar.FiniteField F.SymbolField) v self.old.pair self.new.pair }
        ensures degree { self.new.degree ≡ self.old.degree + 1 }
    {
        let inverse = v.inverse().unwrap();
        let less = v.raise().times(inverse).negative();
        self.x.shift(less);
        self.y.shift(less);
        self.degree += 1;
    }
}

// The first pair leads in x, the second in y.
#[derive(Drop)]
struct State<F: SymbolField> {
    first: Pair<F>,
    second: Pair<F>,
}

impl<F: SymbolField> Model for State<F> {
    ghost use Rattle.linearized.specs.Interpolation.{State as StateOf};

    ghost Value = { StateOf F };

    ghost view = { λ s. record { first = s.first.pair; second = s.second.pair; first_degree = s.first.degree; second_degree = s.second.degree } };
}

impl<F: SymbolField> State<F> {
    // x alone, and y alone.
    fn start(parameters: &Parameters<F>) -> Self
        ensures { IsStart (alphabet F.Scalar.FiniteField F.SymbolField) parameters.now.k result }
    {
        State {
            first: Pair {
                x: Polynomial::variable(),
                y: Polynomial::zero(),
                degree: 0,
            },
            second: Pair {
                x: Polynomial::zero(),
                y: Polynomial::variable(),
                degree: parameters.k - 1,
            },
        }
    }

    // Whether the first pair is raised: of the pairs that do not vanish it has the smaller degree.
    fn first_moves(&self, first: F, second: F) -> bool
        ensures { FirstMoves F.FiniteField.field first second self.now.first_degree self.now.second_degree result }
    {
        !is_zero(first) && (is_zero(second) || self.first.degree <= self.second.degree)
    }

    // One packet more, on which both pairs vanish after.
    fn next(&mut self, packet: Packet<F>)
        requires { (self.old.first_degree + 1 < room) × (self.old.second_degree + 1 < room) }
        ensures { Next (alphabet F.Scalar.FiniteField F.SymbolField) self.old packet self.new }
    {
        let first = self.first.value(packet);
        let second = self.second.value(packet);
        let less = first.negative();
        if self.first_moves(first, second) {
            self.second.mix(less, &self.first, second);
            self.first.raise(first);
        } else if !is_zero(second) {
            self.first.mix(second, &self.second, less);
            self.second.raise(second);
        }
    }
}

// A pair that vanishes on the packets, of least weighted degree.
pub(crate) fn interpolate<F: SymbolField>(
    parameters: &Parameters<F>,
    packets: &[Packet<F>],
) -> Pair<F>
    requires { length packets.now ≤ 32 }
    ensures { Interpolates (alphabet F.Scalar.FiniteField F.SymbolField) parameters.now.k (τ (length packets.now) parameters.now.k) (Span (packet_rows (alphabet F.Scalar.FiniteField F.SymbolField)) packets.now) result.pair.x result.pair.y }
{
    let mut state = State::start(parameters);
    for packet in packets {
        state.next(*packet);
    }
    let State { first, second } = state;
    cmp::min_by_key(first, second, |pair| pair.degree)
}
