//! Laws of what the program reads.
ghost use Rattle.std.specs.Prelude.{◌≡◌, ◌++◌, codes, flat_map};
ghost use Rattle.toll_plant.specs.Table.{command_lines};
ghost use Rattle.toll_plant.specs.Usages.{indented};
ghost use Rattle.toll_programs.specs.Inputs.{script_limit};
ghost use Rattle.toll_programs.specs.declared.task.TheConstants.{MOST_CONNECTIONS_SERVED, USAGE};

/// The limits of the program are those in its documentation: a script of 1,048,576 bytes, and 1,000,000
/// connections that are served.
pub fn limits_are_those_defined()
    ensures script { script_limit ≡ 1048576 }
    ensures connections { MOST_CONNECTIONS_SERVED ≡ 1000000 }
{}

/// The usage of the program has a line for each of its forms, and for each command and question of the plant.
pub fn the_usage_has_every_command()
    ensures { USAGE.now ≡ codes "toll 1.1, office format 2\nusage: toll script\n       toll --db FILE import CSV\n       toll --db FILE serve PORT COUNT\n"
        ++ (flat_map indented command_lines ++ codes "What each does is told by the manual: man toll, or docs/commands.md.\n") }
{}
