//! Laws of the definitions.
ghost use Rattle.command_line.specs.Command.{HaveOneCommand};
ghost use Rattle.command_line.specs.Line.{LinesAreCommands};

/// Words are one command at most.
pub fn one_command()
    ensures { HaveOneCommand }
{}

/// Each line of a command is that command.
pub fn lines_are_commands()
    ensures { LinesAreCommands }
{}
