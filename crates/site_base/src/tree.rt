// Trees: the values of objects.
ghost use Rattle.std.specs.Prelude.{◌≡◌, ◌+◌, ◌<◌, true, false, IfSome, None};
ghost use Rattle.site_base.specs.Weight.{weight};

use crate::{Num, Text};
use std::mem;

/// A value of an object's attribute, and an object's attributes as a whole.
pub enum Tree {
    Null,
    Bool(bool),
    Number(Num),
    Str(Text),
    List(Vec<Tree>),
    /// Distinct keys in byte order.
    Dict(Vec<(Text, Tree)>),
}

impl Drop for Tree {
    /// Takes no memory and no stack in the depth. While a part is taken apart, what contains it stands in the
    /// place of the part's own first part, so the way back up costs nothing.
    fn drop(mut self) {
        let mut part = Tree::Null;
        loop {
            if part.has_parts() {
                if self.has_parts() {
                    let first = part.exchange_first(self);
                    self = part;
                    part = first;
                } else {
                    self.release();
                    self = part;
                    part = Tree::Null;
                }
            } else {
                part.release();
                match self.pop() {
                    Some(last) => part = last,
                    None => {
                        self.release();
                        return;
                    }
                }
            }
        }
    }
}

impl Tree {
    /// Whether the tree is a list or a dictionary with something in it.
    #[tactic(auto, using(crate::proofs::Weights::weight_null, crate::proofs::Weights::weight_bool, crate::proofs::Weights::weight_number, crate::proofs::Weights::weight_str, crate::proofs::Weights::weight_list, crate::proofs::Weights::weight_dict, crate::proofs::Weights::some_items, crate::proofs::Weights::no_items, crate::proofs::Weights::some_pairs, crate::proofs::Weights::no_pairs))]
    fn has_parts(&self) -> bool
        ensures some { result ≡ true → 1 < weight self.now }
        ensures none { result ≡ false → weight self.now ≡ 1 }
    {
        match self {
            Tree::List(items) => !items.is_empty(),
            Tree::Dict(pairs) => !pairs.is_empty(),
            Tree::Null | Tree::Bool(_) | Tree::Number(_) | Tree::Str(_) => false,
        }
    }

    /// Takes the last part out.
    #[tactic(auto, using(crate::proofs::Weights::weight_null, crate::proofs::Weights::weight_bool, crate::proofs::Weights::weight_number, crate::proofs::Weights::weight_str, crate::proofs::Weights::weight_list, crate::proofs::Weights::weight_dict, crate::proofs::Weights::last_item, crate::proofs::Weights::last_pair, crate::proofs::Weights::no_items, crate::proofs::Weights::no_pairs))]
    fn pop(&mut self) -> Option<Tree>
        ensures some { IfSome result (λ t. weight t + weight self.new < weight self.old) }
        ensures none { result ≡ None → (weight self.new ≡ 1) × (weight self.old ≡ 1) }
    {
        match self {
            Tree::List(items) => items.pop(),
            Tree::Dict(pairs) => match pairs.pop() {
                Some((_, value)) => Some(value),
                None => None,
            },
            Tree::Null | Tree::Bool(_) | Tree::Number(_) | Tree::Str(_) => None,
        }
    }

    /// Puts another tree in the place of the first part, and gives that part.
    #[tactic(auto, using(crate::proofs::Weights::weight_null, crate::proofs::Weights::weight_bool, crate::proofs::Weights::weight_number, crate::proofs::Weights::weight_str, crate::proofs::Weights::weight_list, crate::proofs::Weights::weight_dict, crate::proofs::Weights::first_item, crate::proofs::Weights::first_pair, crate::proofs::Weights::first_item_less, crate::proofs::Weights::first_pair_less, crate::proofs::Weights::empty_items, crate::proofs::Weights::empty_pairs))]
    fn exchange_first(&mut self, other: Tree) -> Tree
        requires { 1 < weight self.old }
        ensures exchanged { weight self.new + weight result ≡ weight self.old + weight other }
        ensures less { weight result < weight self.old }
    {
        match self {
            Tree::List(items) => mem::replace(&mut items[0], other),
            Tree::Dict(pairs) => mem::replace(&mut pairs[0].1, other),
            Tree::Null | Tree::Bool(_) | Tree::Number(_) | Tree::Str(_) => other,
        }
    }

    /// Lets a tree without parts go.
    #[tactic(auto, using(crate::proofs::Weights::weight_null, crate::proofs::Weights::weight_bool, crate::proofs::Weights::weight_number, crate::proofs::Weights::weight_str, crate::proofs::Weights::weight_list, crate::proofs::Weights::weight_dict, crate::proofs::Weights::empty_items, crate::proofs::Weights::empty_pairs))]
    fn release(self)
        requires { weight self ≡ 1 }
    {
        match self {
            Tree::Null | Tree::Bool(_) | Tree::Number(_) | Tree::Str(_) => {}
            Tree::List(items) => items.destroy_empty(),
            Tree::Dict(pairs) => pairs.destroy_empty(),
        }
    }
}
