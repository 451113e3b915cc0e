// The check of an order word: a search in the list of all that are valid.
#![tactic(auto)]

ghost use Rattle.std.specs.Prelude.{◌≡◌, ◌≤◌};
ghost use Rattle.order_words.specs.Order.{valid_order};
ghost use Rattle.order_list.specs.Words.{order_words};
ghost use Rattle.order_list.specs.Code.Part.{in_part};

mod words;

use crate::words::word_list;

// Whether a word stands in the list, from an index on and before another.
#[tactic(auto, using(crate::proofs::Search::none_passed, crate::proofs::Search::found_here, crate::proofs::Search::other_passed, crate::proofs::Search::none_found))]
fn is_listed(list: &[u16; 436], word: u16, from: usize, to: usize) -> bool
    requires { (list.now ≡ order_words) × (from ≤ to) × (to ≤ 436) }
    ensures { result ≡ in_part word from to }
{
    for i in from..to {
        if list[i] == word {
            return true;
        }
    }
    false
}

// Whether an order word is valid: the part of the list that can hold it is searched. The ends of the parts are constants and no part has
// more than forty words, so the compiled code compares with constants and lays no list out.
pub fn is_valid_order(word: u16) -> bool
    ensures { result ≡ valid_order word }
{
    let list = word_list();
    if word < list[40] {
        return is_listed(&list, word, 0, 40);
    }
    if word < list[80] {
        return is_listed(&list, word, 40, 80);
    }
    if word < list[120] {
        return is_listed(&list, word, 80, 120);
    }
    if word < list[160] {
        return is_listed(&list, word, 120, 160);
    }
    if word < list[200] {
        return is_listed(&list, word, 160, 200);
    }
    if word < list[240] {
        return is_listed(&list, word, 200, 240);
    }
    if word < list[280] {
        return is_listed(&list, word, 240, 280);
    }
    if word < list[320] {
        return is_listed(&list, word, 280, 320);
    }
    if word < list[360] {
        return is_listed(&list, word, 320, 360);
    }
    if word < list[400] {
        return is_listed(&list, word, 360, 400);
    }
    is_listed(&list, word, 400, 436)
}
