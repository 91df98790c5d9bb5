//! A row on the handles of modules and of the event.

use gentl_handles::{Handle, Tree};
use std::alloc::Global;

/// The handle behind an open one that the word gives by its index, or the first one.
fn opened(tree: &mut Tree, parent: Option<Handle>, word: &str) -> Option<Handle> {
    let index = word.parse::<u32>().ok()?;
    tree.open_child(parent, index).ok()
}

/// `level INDEX ..`: handles are opened, each behind the one before by its index. What the last one stands for.
pub fn level(alloc: Global, words: &[&str]) -> Option<String> {
    let mut tree = Tree::new(alloc).ok()?;
    let mut last = None;
    for word in words.iter().skip(1) {
        last = Some(opened(&mut tree, last, word)?);
    }
    let level = tree.level(last.unwrap_or_default());
    format!(in alloc; "{level:?}").ok()
}
