// What a key may be.
ghost use Rattle.std.specs.Prelude.{◌≡◌};
ghost use Rattle.blocks.specs.Refusal.{bad_key, over_long};

use nodes::layout::KEY_LIMIT;

// Whether a key has more bytes than a key may have.
#[tactic(auto, unfolding(crate::specs::Refusal::over_long))]
pub fn is_over_long(key: &[u8]) -> bool
    ensures { result ≡ over_long key.now }
{
    KEY_LIMIT < key.len()
}

// Whether a key is empty or over long.
#[tactic(auto, unfolding(crate::specs::Refusal::bad_key))]
pub fn is_bad_key(key: &[u8]) -> bool
    ensures { result ≡ bad_key key.now }
{
    key.is_empty() || is_over_long(key)
}
