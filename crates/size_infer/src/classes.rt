//! Classes of nodes that have one size.

ghost use Rattle.std.specs.Prelude.{◌≡◌, ◌≤◌, ◌<◌, ◌&&◌, Bool, true, ℕ, length, map};
ghost use Rattle.nir_ops.specs.declared.width.Width.{Width};
ghost use Rattle.size_infer.specs.Meant.{meant};
ghost use Rattle.size_infer.specs.Options.{listed, narrowed_at, set_at};
ghost use Rattle.size_laws.specs.ClassesLaws.{IsNaming};
ghost use Rattle.size_laws.specs.Places.{all_within, allowed, classes, merge, merged_by, redirect, within};

use crate::size_rule::SizeRule;
use rule_term::WidthSet;

/// Nodes that have one size in every typing are a class, named by its first node. A rule has at most 98 nodes, since a
/// side of 16 opcodes has at most 49.
#[derive(Drop)]
pub(crate) struct Classes {
    /// For each node the first of its class.
    pub(crate) first: [usize; 98],
    /// The sizes that all nodes of a class may have, at its first node.
    pub(crate) sets: [WidthSet; 98],
}

/// The classes of nodes of which this is asked.
pub(crate) fn classes_of(rules: &[SizeRule]) -> Classes
    requires within { all_within 98 (map meant rules.now) ≡ true }
    ensures first { listed result.first ≡ classes (map meant rules.now) }
    ensures sets { set_at result.sets ≡ allowed (classes (map meant rules.now)) (map meant rules.now) }
{
    let first = first_nodes(rules);
    let sets = class_sets(&first, rules);
    Classes { first, sets }
}

/// The first node of each node's class.
fn first_nodes(rules: &[SizeRule]) -> [usize; 98]
    requires within { all_within 98 (map meant rules.now) ≡ true }
    ensures long { length result ≡ 98 }
    ensures first { listed result ≡ classes (map meant rules.now) }
{
    let mut first = each_alone();
    for rule in rules {
        join_by(&mut first, rule);
    }
    first
}

/// Each node is a class.
fn each_alone() -> [usize; 98]
    ensures long { length result ≡ 98 }
    ensures alone { (node : ℕ) → listed result node ≡ node }
{
    let mut first = [0; 98];
    for node in 0..98 {
        first[node] = node;
    }
    first
}

/// Joins two classes where their nodes have one size.
fn join_by(first: &mut [usize], rule: &SizeRule)
    requires naming { IsNaming (length first.old) (listed first.old) }
    requires within { within (length first.old) (meant rule.now) ≡ true }
    ensures { listed first.new ≡ merged_by (listed first.old) (meant rule.now) }
{
    match rule {
        SizeRule::Same { one, other } => join(first, *one, *other),
        SizeRule::Within { .. } => {}
    }
}

/// Joins the classes of two nodes. The class is named by the smaller of their first nodes.
fn join(first: &mut [usize], one: usize, other: usize)
    requires naming { IsNaming (length first.old) (listed first.old) }
    requires one_inside { one < length first.old }
    requires other_inside { other < length first.old }
    ensures { listed first.new ≡ merge (listed first.old) one other }
{
    let a = first[one];
    let b = first[other];
    if a < b {
        redirect_all(first, b, a);
    } else {
        redirect_all(first, a, b);
    }
}

/// Lets the nodes of one class be of another.
fn redirect_all(first: &mut [usize], from: usize, to: usize)
    requires inside { from < length first.old }
    ensures { (node : ℕ) → listed first.new node ≡ redirect from to (listed first.old node) }
{
    for class in first.iter_mut() {
        *class = redirect(from, to, *class);
    }
}

fn redirect(from: usize, to: usize, class: usize) -> usize
    ensures { result ≡ redirect from to class }
{
    if class == from { to } else { class }
}

/// The sizes that all nodes of a class may have.
fn class_sets(first: &[usize], rules: &[SizeRule]) -> [WidthSet; 98]
    requires long { length first.now ≡ 98 }
    requires below { (node : ℕ) → listed first.now node ≤ node }
    requires within { all_within 98 (map meant rules.now) ≡ true }
    ensures { set_at result ≡ allowed (listed first.now) (map meant rules.now) }
{
    let mut sets = [WidthSet::full(); 98];
    for rule in rules {
        narrow_by(&mut sets, first, rule);
    }
    sets
}

/// Leaves to the class of a node the sizes that the node may have.
fn narrow_by(sets: &mut [WidthSet], first: &[usize], rule: &SizeRule)
    requires sets_long { length sets.old ≡ 98 }
    requires first_long { length first.now ≡ 98 }
    requires below { (node : ℕ) → listed first.now node ≤ node }
    requires within { within 98 (meant rule.now) ≡ true }
    ensures { (node : ℕ) (width : Width) → set_at sets.new node width ≡ narrowed_at sets.old first.now rule.now node width }
{
    match rule {
        SizeRule::Same { .. } => {}
        SizeRule::Within { place, set } => {
            let class = first[*place];
            sets[class] = sets[class].and(*set);
        }
    }
}
