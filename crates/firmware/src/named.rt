// Gates and readings by the numbers that name them in C.
ghost use Rattle.std.specs.Prelude.{◌≡◌};
ghost use Rattle.firmware.specs.Choices.{ours};
ghost use Rattle.firmware.specs.Code.Named.{gate_named, reading_named};

use dosing::temperature::{Reading, TemperatureGate};

// The gate of a number; one that names no kind gets a limit off the scale, which no sheet may have. So no number fails, and it is
// no TryFrom: the verdict itself then answers 8 at its place in the order.
#[tactic(auto, unfolding(crate::proofs::NamedKinds::named_open))]
pub fn gate_named(kind: u32, low: f32, high: f32) -> TemperatureGate
    ensures { result ≡ gate_named ours kind low high }
{
    match kind {
        1 => TemperatureGate::Any,
        2 => TemperatureGate::AtLeast(low),
        3 => TemperatureGate::Between(low, high),
        _ => TemperatureGate::AtLeast(1000.0),
    }
}

// The reading of a number; one that names no unit gets degrees off the scale, which no reading may have, so it is no TryFrom either.
#[tactic(auto, unfolding(crate::proofs::NamedKinds::named_open))]
pub fn reading_named(unit: u32, degrees: f32) -> Reading
    ensures { result ≡ reading_named ours unit degrees }
{
    match unit {
        1 => Reading::Celsius(degrees),
        2 => Reading::Fahrenheit(degrees),
        _ => Reading::Celsius(1000.0),
    }
}
