//! How many connections a process may have open within its limits.
use std::alloc::AllocError;
use toll_office::connections_within;

const HEAD: &str =
    "Limit                     Soft Limit           Hard Limit           Units     \n";

const ENDS: &[(&str, usize)] = &[
    (
        "Max open files            64                   524288               files     \n",
        40,
    ),
    (
        "Max open files            1024                 524288               files     \n",
        900,
    ),
    (
        "Max open files            923                  4096                 files     \n",
        899,
    ),
    (
        "Max open files            25                   4096                 files     \n",
        1,
    ),
    (
        "Max open files            3                    4096                 files     \n",
        1,
    ),
    (
        "Max open files            unlimited            unlimited            files     \n",
        900,
    ),
    (
        "Max processes             64                   64                   processes \n",
        900,
    ),
    ("", 900),
];

#[test]
fn connections_leave_descriptors_for_the_office(rt: HostRuntime) -> Result<(), AllocError> {
    for row in ENDS {
        let (line, most) = *row;
        let limits = format!(in rt.alloc(); "{HEAD}{line}")?;
        assert_eq!(rt; connections_within(limits.as_str()), most, "at {line}");
    }
    Ok(())
}
