//! The profile of a module that was never run.

use flow_graph::slot_count;
use ir_types::module::Module;
use ir_types::syntax::Function;
use std::alloc::Global;
use std::test::Fail;

// Adds the line of each block, with no count for each of its slots.
fn add_blocks(alloc: Global, text: &mut String, function: &Function<'_>) -> Result<(), Fail> {
    for (number, block) in function.blocks.as_slice().iter().enumerate() {
        let line = format!(in alloc; "block {number}")?;
        text.push_str(&line)?;
        for _ in 0..slot_count(&block.term) {
            text.push_str(" 0")?;
        }
        text.push_str("\n")?;
    }
    Ok(())
}

/// The text of a profile in which nothing was ever entered.
pub(crate) fn never_run(alloc: Global, program: &Module<'_>) -> Result<String, Fail> {
    let mut text = String::from_str(alloc, "mcpre-profile 1\n")?;
    let defined = program
        .functions()
        .iter()
        .filter(|function| function.blocks.len() != 0);
    for (number, function) in defined.enumerate() {
        let line = format!(in alloc; "func {number} 0\n")?;
        text.push_str(&line)?;
        add_blocks(alloc, &mut text, function)?;
    }
    Ok(text)
}
