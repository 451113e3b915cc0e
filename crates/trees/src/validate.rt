// Validation of one root's tree: the checks of a node, of the cells of a split and of a child call each other, the depth left falling.
ghost use Rattle.std.specs.Prelude.{◌<◌};
ghost use Rattle.trees.specs.Code.Visit.{VisitAnswer};

use crate::stamps::{Visit, stamp_cell};
use cells::word_at;
use nodes::layout::{CELL_LIMIT, KEY_LIMIT};
use nodes::pointer::Pointer;
use nodes::sparse::{is_valid_sparse, sparse_count, sparse_position};
use nodes::split::is_valid_head;

impl<'a> Visit<'a> {
    ghost use Rattle.nodes.specs.Code.Cells.{memory};
    ghost use Rattle.trees.specs.Root.{root_tree};
    ghost use Rattle.trees.specs.Code.Parts.{child_tree, plain_tree, split_branches};

    // Judges a chain, sparse or split: its own cell, then what is below it. A run inside a chain takes a character for each place.
    #[cycle(child_check_node_check_split_check)]
    fn node_check(&self, stamps: &mut [u8; CELL_LIMIT], word: u32, depth: usize) -> bool
        ensures { VisitAnswer (plain_tree self.now.cells.layout (memory self.now.cells) depth word) self.now.stamp stamps.old stamps.new result }
    {
        match self.cells.pointer(word) {
            Pointer::Chain(number, place) => {
                let run = 27 - place;
                if depth < run {
                    return false;
                }
                let end = word_at(self.cells.bytes, number * 32 + 28);
                if !stamp_cell(stamps, self.stamp, number, end != 0) {
                    return false;
                }
                self.child_check(stamps, end, depth - run)
            }
            Pointer::Sparse(number) => {
                let bytes = self.cells.cell(number);
                if !stamp_cell(stamps, self.stamp, number, is_valid_sparse(bytes)) {
                    return false;
                }
                for i in 0..sparse_count(bytes) {
                    let child = word_at(bytes, 4 * sparse_position(bytes, i));
                    if !self.child_check(stamps, child, depth) {
                        return false;
                    }
                }
                true
            }
            Pointer::Split(number) => {
                if !stamp_cell(
                    stamps,
                    self.stamp,
                    number,
                    is_valid_head(self.cells.cell(number)),
                ) {
                    return false;
                }
                self.split_check(stamps, number, depth)
            }
            _ => false,
        }
    }

    // Judges the words of a split's head: each mid, each of its ends and the children there. Loops, since a call for each branch takes stack.
    #[cycle(child_check_node_check_split_check)]
    fn split_check(&self, stamps: &mut [u8; CELL_LIMIT], number: usize, depth: usize) -> bool
        requires { number < self.now.cells.layout.cells }
        ensures { VisitAnswer (split_branches self.now.cells.layout (memory self.now.cells) depth number) self.now.stamp stamps.old stamps.new result }
    {
        let head = number * 32 + 16;
        for i in 0..4 {
            let mid = word_at(self.cells.bytes, head + 4 * i);
            if mid == 0 {
                continue;
            }
            if !self.stamp_branch(stamps, mid) {
                return false;
            }
            let ends = (mid / 32) as usize * 32;
            for j in 0..8 {
                let end = word_at(self.cells.bytes, ends + 4 * j);
                if end == 0 {
                    continue;
                }
                if !self.stamp_branch(stamps, end) {
                    return false;
                }
                let children = (end / 32) as usize * 32;
                for k in 0..8 {
                    let child = word_at(self.cells.bytes, children + 4 * k);
                    if !self.child_check(stamps, child, depth) {
                        return false;
                    }
                }
            }
        }
        true
    }

    // Judges what is below a child word: nothing at NONE, no cell at a leaf, a prefix with the node that it links to, or a node.
    #[cycle(child_check_node_check_split_check)]
    fn child_check(&self, stamps: &mut [u8; CELL_LIMIT], word: u32, depth: usize) -> bool
        ensures { VisitAnswer (child_tree self.now.cells.layout (memory self.now.cells) depth word) self.now.stamp stamps.old stamps.new result }
    {
        if word == 0 {
            return true;
        }
        if depth == 0 {
            return false;
        }
        let mut node = word;
        match self.cells.pointer(word) {
            Pointer::Leaf(_) => return true,
            Pointer::Prefix(number) => {
                if !self.stamp_prefix(stamps, number) {
                    return false;
                }
                node = self.cells.link_at(number);
            }
            _ => {}
        }
        self.node_check(stamps, node, depth - 1)
    }

    // Judges the tree of a root.
    #[tactic(auto, using(crate::proofs::Validation::Judging::judged_empty, crate::proofs::Validation::Judging::judged_same, crate::proofs::Validation::ChildTrees::root_none, crate::proofs::Validation::ChildTrees::root_plain))]
    pub fn root_check(&self, stamps: &mut [u8; CELL_LIMIT], word: u32) -> bool
        ensures { VisitAnswer (root_tree self.now.cells.layout (memory self.now.cells) word) self.now.stamp stamps.old stamps.new result }
    {
        if word == 0 {
            return true;
        }
        self.node_check(stamps, word, KEY_LIMIT)
    }
}
