// Temperature readings, the gates that they are held against, and the scale on which both are judged.
ghost use Rattle.std.specs.Prelude.{◌≡◌};
ghost use Rattle.dosing.specs.Temperature.{celsius, in_gate, on_scale, to_celsius, valid_gate, valid_reading, within};

// A thermometer's number in its own unit.
#[derive(Clone, Copy)]
pub enum Reading {
    Celsius(f32),
    Fahrenheit(f32),
}

// The temperatures, in Celsius, at which a product may be applied.
#[derive(Clone, Copy)]
pub enum TemperatureGate {
    Any,
    AtLeast(f32),
    Between(f32, f32),
}

// Whether a number lies from low to high, both inside; both tests fail for a NaN, so it lies nowhere.
pub fn is_within(low: f32, high: f32, number: f32) -> bool
    ensures { result ≡ within low high number }
{
    low <= number && number <= high
}

// Whether a limit or a reading lies where a temperature can be told, in whichever unit it stands.
#[tactic(auto, unfolding(crate::specs::Temperature::on_scale, crate::proofs::Literals::literals))]
fn is_on_scale(degrees: f32) -> bool
    ensures { result ≡ on_scale degrees }
{
    is_within(-100.0, 400.0, degrees)
}

// Three operations, each rounded by itself: nothing is folded or fused.
#[tactic(auto, unfolding(crate::specs::Temperature::to_celsius, crate::proofs::Literals::literals))]
pub fn to_celsius(fahrenheit: f32) -> f32
    ensures { result ≡ to_celsius fahrenheit }
{
    ((fahrenheit - 32.0) * 5.0) / 9.0
}

// A reading in the unit of the gates; a function, no From, since it loses the unit of the number.
#[tactic(auto, unfolding(crate::specs::Temperature::celsius))]
pub fn celsius(reading: Reading) -> f32
    ensures { result ≡ celsius reading }
{
    match reading {
        Reading::Celsius(degrees) => degrees,
        Reading::Fahrenheit(degrees) => to_celsius(degrees),
    }
}

// Whether a reading can be believed, judged in its own unit and so before any conversion.
#[tactic(auto, unfolding(crate::specs::Temperature::valid_reading))]
pub fn is_valid_reading(reading: Reading) -> bool
    ensures { result ≡ valid_reading reading }
{
    match reading {
        Reading::Celsius(degrees) => is_on_scale(degrees),
        Reading::Fahrenheit(degrees) => is_on_scale(degrees),
    }
}

// Whether a gate's limits can be meant; a gate of one temperature can, one whose low is above its high cannot.
#[tactic(auto, unfolding(crate::specs::Temperature::valid_gate))]
pub fn is_valid_gate(gate: TemperatureGate) -> bool
    ensures { result ≡ valid_gate gate }
{
    match gate {
        TemperatureGate::Any => true,
        TemperatureGate::AtLeast(low) => is_on_scale(low),
        TemperatureGate::Between(low, high) => is_on_scale(low) && is_on_scale(high) && low <= high,
    }
}

// Whether degrees Celsius pass a gate: asked as "at least", never as "not below", so that a NaN passes only the gate any.
#[tactic(auto, unfolding(crate::specs::Temperature::in_gate))]
pub fn is_in_gate(gate: TemperatureGate, degrees: f32) -> bool
    ensures { result ≡ in_gate gate degrees }
{
    match gate {
        TemperatureGate::Any => true,
        TemperatureGate::AtLeast(low) => low <= degrees,
        TemperatureGate::Between(low, high) => is_within(low, high, degrees),
    }
}
