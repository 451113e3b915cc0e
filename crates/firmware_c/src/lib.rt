// The calls of firmware as C sees them: the symbols of the library that the header names, each over the proved call of the same name.
#![tactic(auto)]

ghost use Rattle.std.specs.Prelude.{◌≡◌};
ghost use Rattle.firmware.specs.Choices.{ours};
ghost use Rattle.firmware.specs.NumberCalls.{get_numbers, insert_numbers, verdict_numbers};

// Inserts a key with its value into a block, and counts the cells allocated.
#[unsafe(no_mangle)]
pub extern "C" fn register_insert(block: &mut [u8], key: &[u8], value: u32, count: &mut u32) -> u8
    ensures { insert_numbers block.old key.now value ≡ record { answer = result; count = count.new; block = block.new } }
{
    firmware::register_insert(block, key, value, count)
}

// The value that a block holds for a key.
#[unsafe(no_mangle)]
pub extern "C" fn register_get(block: &[u8], key: &[u8], value: &mut u32) -> u8
    ensures { get_numbers block.now key.now ≡ record { answer = result; value = value.new } }
{
    firmware::register_get(block, key, value)
}

// Whether a bead may be laid today from the cartridge of a label at a temperature, and its dose in millilitres.
#[unsafe(no_mangle)]
pub extern "C" fn register_verdict(
    block: &[u8],
    label: &[u8],
    year: u32,
    month: u32,
    day: u32,
    unit: u32,
    degrees: f32,
    kind: u32,
    low: f32,
    high: f32,
    section: f32,
    extent: f32,
    dose: &mut f32,
) -> u8
    ensures { verdict_numbers ours block.now label.now year month day (record { unit = unit; degrees = degrees }) (record { kind = kind; low = low; high = high; section = section; extent = extent }) ≡ record { answer = result; dose = dose.new } }
{
    firmware::register_verdict(
        block, label, year, month, day, unit, degrees, kind, low, high, section, extent, dose,
    )
}
