//! What the words after the program's name ask for.
use toll_programs::{Task, task_of};

const ASKED: &[(&[&str], Task<'static>)] = &[
    (&["script"], Task::Script),
    (
        &["--db", "toll.db", "unit-add", "KETTLE"],
        Task::Words {
            file: "toll.db",
            words: &["unit-add", "KETTLE"],
        },
    ),
    (
        &["--db", "toll.db", "import", "day.csv"],
        Task::Import {
            file: "toll.db",
            actuals: "day.csv",
        },
    ),
    (
        &["--db", "toll.db", "serve", "65535", "1000000"],
        Task::Serve {
            file: "toll.db",
            port: 65_535,
            count: 1_000_000,
        },
    ),
];

#[test]
fn words_ask_for_one_of_four_things(rt: HostRuntime) {
    for row in ASKED {
        let (words, task) = *row;
        assert!(rt; task_of(words) == Some(task), "at {words:?}");
    }
}

const NOTHING: &[&[&str]] = &[
    &[],
    &["script", "day.toll"],
    &["--db"],
    &["--db", "toll.db"],
    &["toll.db", "orders"],
    &["--db", "toll.db", "import"],
    &["--db", "toll.db", "import", "day.csv", "night.csv"],
    &["--db", "toll.db", "serve", "8080"],
    &["--db", "toll.db", "serve", "65536", "1"],
    &["--db", "toll.db", "serve", "8080", "0"],
    &["--db", "toll.db", "serve", "8080", "1000001"],
    &["--db", "toll.db", "serve", "8080", "+1"],
];

#[test]
fn other_words_ask_for_nothing(rt: HostRuntime) {
    for words in NOTHING {
        assert!(rt; task_of(words).is_none());
    }
}
