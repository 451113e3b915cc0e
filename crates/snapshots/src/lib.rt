// Snapshots of a block: keeping the root in a slot, returning to it and giving it up.
#![tactic(auto)]

ghost use Rattle.std.specs.Prelude.{true, ◌≡◌};
ghost use Rattle.blocks.specs.Answers.{changed_outcome};
ghost use Rattle.blocks.specs.Code.Written.{Written};
ghost use Rattle.blocks.specs.Trailer.{valid_slot, slot_bit};
ghost use Rattle.blocks.specs.TrailerWrites.{with_slot_word, with_slot_bits};
ghost use Rattle.snapshots.specs.Snapshots.{with_bit, without_bit, slot_refusals, used_slot_refusals, snapshot, restore, release};
ghost use Rattle.snapshots.specs.Code.{FoundSlot};

use blocks::answer::{Answer, Refusal};
use blocks::block::Slot;
use blocks::trailer_writes::BlockMut;
use blocks::validate::judged;

// The value of a slot's bit.
#[tactic(auto, using(blocks::proofs::TrailerSteps::slot_range, crate::proofs::SnapshotSteps::bit_shifted))]
fn slot_bit(slot: &Slot) -> u8
    ensures { result ≡ slot_bit slot.now.number }
{
    1u8 << (slot.number - 1)
}

// The bits of the slots in use with that of a slot set.
#[tactic(auto, using(crate::proofs::SnapshotSteps::bit_kept, crate::proofs::SnapshotSteps::bit_added, crate::proofs::SnapshotSteps::bit_room))]
fn with_bit(slot: &Slot) -> u8
    ensures { result ≡ with_bit slot.now.block.layout slot.now.block.bytes.now slot.now.number }
{
    let bits = slot.block.slot_bits();
    if slot.is_in_use() {
        return bits;
    }
    bits + slot_bit(slot)
}

// The bits of the slots in use with that of a slot cleared. Apart from `with_bit`, as their definitions are: one adds, the other takes.
#[tactic(auto, using(crate::proofs::SnapshotSteps::bit_absent, crate::proofs::SnapshotSteps::bit_taken, crate::proofs::SnapshotSteps::bit_there))]
fn without_bit(slot: &Slot) -> u8
    ensures { result ≡ without_bit slot.now.block.layout slot.now.block.bytes.now slot.now.number }
{
    let bits = slot.block.slot_bits();
    if !slot.is_in_use() {
        return bits;
    }
    bits - slot_bit(slot)
}

// The slot that a number names in a sound block.
#[tactic(auto, using(std::proofs::lemmas::Result::err_from_is_err_and, blocks::proofs::RefusalSteps::refusal_number_lem, crate::proofs::SnapshotSteps::block_refused, crate::proofs::SnapshotSteps::slot_found))]
fn lawful_slot(block: &[u8], slot: u32) -> Answer<Slot>
    ensures { FoundSlot block.now slot (slot_refusals block.now slot) result }
{
    judged(block)?.block.slot(slot as usize)
}

// The same of a slot that must be in use.
#[tactic(auto, using(std::proofs::lemmas::Result::err_from_is_err_and, blocks::proofs::RefusalSteps::refusal_number_lem, crate::proofs::SnapshotSteps::earlier_refused, crate::proofs::SnapshotSteps::use_refused, crate::proofs::SnapshotSteps::use_accepted))]
fn used_slot(block: &[u8], slot: u32) -> Answer<Slot>
    ensures { FoundSlot block.now slot (used_slot_refusals block.now slot) result }
{
    let slot = lawful_slot(block, slot)?;
    if !slot.is_in_use() {
        return Err(Refusal::SlotNotInUse);
    }
    Ok(slot)
}

// Writes the bits of the slots in use and the word of a slot; a number, for a Slot would borrow the block that is written.
fn put_slot(block: &mut BlockMut, slot: usize, bits: u8, word: u32)
    requires { valid_slot block.old.layout slot ≡ true }
    ensures { Written block.old block.new (with_slot_word block.old.layout (with_slot_bits block.old.layout block.old.bytes.now bits) slot word) }
{
    block.put_slot_bits(bits);
    block.put_slot_word(slot, word);
}

// Keeps the present root in a slot; a slot in use is overwritten. The three calls stand apart: each writes other fields.
#[tactic(auto, using(std::proofs::lemmas::Result::err_from_is_err_and, blocks::proofs::RefusalSteps::refusal_number_lem, crate::proofs::SnapshotSteps::snapshot_stopped, crate::proofs::SnapshotSteps::snapshot_done))]
pub fn snapshot(block: &mut [u8], slot: u32) -> Answer<()>
    ensures { snapshot block.old slot ≡ changed_outcome result block.new }
{
    let slot = lawful_slot(block, slot)?;
    let layout = slot.block.layout;
    let number = slot.number;
    let bits = with_bit(&slot);
    let root = slot.block.root_word();
    let mut lent = BlockMut {
        layout,
        bytes: block,
    };
    put_slot(&mut lent, number, bits, root);
    Ok(())
}

// Makes the root that a slot holds the present one; the slot keeps it.
#[tactic(auto, using(std::proofs::lemmas::Result::err_from_is_err_and, blocks::proofs::RefusalSteps::refusal_number_lem, crate::proofs::SnapshotSteps::restore_stopped, crate::proofs::SnapshotSteps::restore_done))]
pub fn restore(block: &mut [u8], slot: u32) -> Answer<()>
    ensures { restore block.old slot ≡ changed_outcome result block.new }
{
    let slot = used_slot(block, slot)?;
    let layout = slot.block.layout;
    let word = slot.slot_word();
    let mut lent = BlockMut {
        layout,
        bytes: block,
    };
    lent.put_root(word);
    Ok(())
}

// Gives up what a slot holds.
#[tactic(auto, using(std::proofs::lemmas::Result::err_from_is_err_and, blocks::proofs::RefusalSteps::refusal_number_lem, crate::proofs::SnapshotSteps::release_stopped, crate::proofs::SnapshotSteps::release_done))]
pub fn release(block: &mut [u8], slot: u32) -> Answer<()>
    ensures { release block.old slot ≡ changed_outcome result block.new }
{
    let slot = used_slot(block, slot)?;
    let layout = slot.block.layout;
    let number = slot.number;
    let bits = without_bit(&slot);
    let mut lent = BlockMut {
        layout,
        bytes: block,
    };
    put_slot(&mut lent, number, bits, 0);
    Ok(())
}
