// What the definitions of a block's commands imply.
ghost use Rattle.std.specs.Prelude.{◌≤◌, ℕ};
ghost use Rattle.generated_commands.specs.Commands.{AreCommands, block_commands};
ghost use Rattle.generated_items.specs.Items.{block_items};
ghost use Rattle.generated_script.specs.declared.shape.Shape.{Shape as AnyBlock};

/// The items of a block with a number up to 50 are its commands, in their order.
pub fn blocks_are_commands()
    ensures { (block : AnyBlock) (number : ℕ) → number ≤ 50 → AreCommands (block_items block number) (block_commands block number) }
{}
