// Product sheets: when a product may be applied, and what bead of it is laid.
ghost use Rattle.std.specs.Prelude.{◌≡◌};
ghost use Rattle.dosing.specs.Sheet.{dose_of, valid_sheet};

use crate::temperature::{TemperatureGate, is_valid_gate, is_within};

// The bead's section is in square millimetres, its length in millimetres.
#[derive(Clone, Copy)]
pub struct ProductSheet {
    pub gate: TemperatureGate,
    pub section: f32,
    pub length: f32,
}

// Whether a sheet's gate, section and length can all be meant.
#[tactic(auto, unfolding(crate::specs::Sheet::valid_sheet, crate::proofs::Literals::limits))]
pub fn is_valid_sheet(sheet: ProductSheet) -> bool
    ensures { result ≡ valid_sheet sheet }
{
    is_valid_gate(sheet.gate)
        && is_within(0.5, 100.0, sheet.section)
        && is_within(1.0, 10000.0, sheet.length)
}

// Millilitres of a bead: the product is rounded before it is divided.
#[tactic(auto, unfolding(crate::specs::Sheet::dose_of, crate::proofs::Literals::literals))]
pub fn dose(sheet: ProductSheet) -> f32
    ensures { result ≡ dose_of sheet }
{
    (sheet.section * sheet.length) / 1000.0
}
