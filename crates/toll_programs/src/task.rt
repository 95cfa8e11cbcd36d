//! The words of the program's command line.
ghost use Rattle.std.specs.Prelude.{◌≡◌, map, option_map};
ghost use Rattle.toll_programs.specs.ShownTask.{shown_task};
ghost use Rattle.toll_programs.specs.Tasks.{import_task, office_task, requested_task, serving_task, usage_for, usage_for_form};

use toll_base::number;

/// What the program's words ask for.
#[derive(Clone, Copy, PartialEq, Eq)]
pub enum Task<'a> {
    /// A script, from standard input.
    Script,
    /// A command or question of the plant, in these words.
    Words {
        file: &'a str,
        words: &'a [&'a str],
    },
    /// The import of a file of actuals.
    Import {
        file: &'a str,
        actuals: &'a str,
    },
    /// The serving of this number of connections on this port.
    Serve {
        file: &'a str,
        port: u16,
        count: u64,
    },
}

/// How many connections one `serve` serves at most: the greatest COUNT.
pub const MOST_CONNECTIONS_SERVED: u64 = 1_000_000;

/// The usage of the program, with all its forms.
pub const USAGE: &str = "toll 1.1, office format 2
usage: toll script
       toll --db FILE import CSV
       toll --db FILE serve PORT COUNT
       toll --db FILE owner-add OWNER KEY
       toll --db FILE unit-add UNIT
       toll --db FILE material-add OWNER MATERIAL MEASURE
       toll --db FILE test-add OWNER MATERIAL TEST LOW HIGH
       toll --db FILE recipe-add OWNER RECIPE SEGMENTS
       toll --db FILE require OWNER RECIPE SEGMENT USE SOURCE MATERIAL AMOUNT
       toll --db FILE order ORDER RECIPE BATCHES
       toll --db FILE cancel ORDER
       toll --db FILE open OWNER ORDER UNIT
       toll --db FILE do OWNER ORDER BATCH COMMAND
       toll --db FILE close OWNER ORDER BATCH
       toll --db FILE receive OWNER KEY MATERIAL LOT SUBLOT AMOUNT DAY
       toll --db FILE split OWNER KEY LOT SUBLOT TARGET AMOUNT DAY
       toll --db FILE ship OWNER KEY LOT SUBLOT AMOUNT DAY
       toll --db FILE scrap OWNER KEY LOT SUBLOT AMOUNT DAY
       toll --db FILE result OWNER LOT TEST VALUE DAY
       toll --db FILE release LOT
       toll --db FILE reject LOT
       toll --db FILE actual KEY OWNER ORDER BATCH SEGMENT USE MATERIAL LOT-OWNER LOT SUBLOT AMOUNT DAY
       toll --db FILE void OWNER KEY
       toll --db FILE orders OWNER
       toll --db FILE stock OWNER
       toll --db FILE batch OWNER ORDER BATCH
       toll --db FILE trace OWNER LOT WAY
       toll --db FILE recall OWNER LOT
What each does is told by the manual: man toll, or docs/commands.md.
";

/// The usage of the form that imports a file of actuals.
pub const IMPORT_USAGE: &str = "usage: toll --db FILE import CSV
CSV is a file of actuals, of at most 1,048,576 bytes: man toll, or docs/csv.md.
";

/// The usage of the form that serves owners.
pub const SERVE_USAGE: &str = "usage: toll --db FILE serve PORT COUNT
PORT is 0 to 65535, and 0 takes a free one; COUNT, from 1 to 1000000, is how many connections are served.
";

/// What the words after the program's name ask for: `None` if they have none of its four forms. Words after
/// the file whose first is `import` or `serve` are no command of the plant.
pub fn task_of<'a>(words: &'a [&'a str]) -> Option<Task<'a>>
    ensures { option_map shown_task result ≡ requested_task (map (λ w. w.now) words.entry.now) }
{
    match words {
        [word] if *word == "script" => Some(Task::Script),
        [word, file, words @ ..] if *word == "--db" => task_of_office(file, words),
        _ => None,
    }
}

// What the words ask for over the office in a file.
fn task_of_office<'a>(file: &'a str, words: &'a [&'a str]) -> Option<Task<'a>>
    ensures { option_map shown_task result ≡ office_task file.now (map (λ w. w.now) words.entry.now) }
{
    match words {
        [] => None,
        [first, words @ ..] if *first == "import" => task_of_import(file, words),
        [first, words @ ..] if *first == "serve" => task_of_serving(file, words),
        words => Some(Task::Words { file, words }),
    }
}

// The import that these words ask for: `None` unless they are the path of one file.
fn task_of_import<'a>(file: &'a str, words: &'a [&'a str]) -> Option<Task<'a>>
    ensures { option_map shown_task result ≡ import_task file.now (map (λ w. w.now) words.entry.now) }
{
    match words {
        [actuals] => Some(Task::Import { file, actuals }),
        _ => None,
    }
}

// The serving that these words ask for: `None` unless they are a port and a number of connections, within their
// limits.
fn task_of_serving<'a>(file: &'a str, words: &'a [&'a str]) -> Option<Task<'a>>
    ensures { option_map shown_task result ≡ serving_task file.now (map (λ w. w.now) words.entry.now) }
{
    let [port, count] = words else {
        return None;
    };
    let port = u16::try_from(number(port.as_bytes())?).ok()?;
    let count = number(count.as_bytes())?;
    if count == 0 || count > MOST_CONNECTIONS_SERVED {
        return None;
    }
    Some(Task::Serve { file, port, count })
}

/// The usage of the program, for words that ask for nothing: all its forms, or the one form that the words
/// begin with.
pub fn usage_of(words: &[&str]) -> &'static str
    ensures { result.now ≡ usage_for (map (λ w. w.now) words.now) }
{
    match usage_of_form(words) {
        Some(usage) => usage,
        None => USAGE,
    }
}

// The usage of the form that the words begin with, if it has one of its own.
fn usage_of_form(words: &[&str]) -> Option<&'static str>
    ensures { option_map (λ usage. usage.now) result ≡ usage_for_form (map (λ w. w.now) words.now) }
{
    match words {
        [_, _, form, ..] if *form == "import" => Some(IMPORT_USAGE),
        [_, _, form, ..] if *form == "serve" => Some(SERVE_USAGE),
        _ => None,
    }
}
