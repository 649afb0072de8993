// What whole calls of the compiler ask for: the calls of `iasl_options::task`.
use data_layout::table::Table;
use iasl_options::request::WordsStop;
use iasl_options::task::{Task, task_of};
use std::alloc::{AllocError, Global};

// What words ask for: to compile a file, to generate so many devices, or to write the template of a table; or the number of the word
// that spoils them.
#[derive(Drop)]
enum Wanted {
    File(&'static [u8]),
    Devices(u32),
    Template(Table),
    Spoilt(usize),
}

fn is(answer: &Result<Task, WordsStop>, wanted: &Wanted) -> bool {
    match (answer, wanted) {
        (Ok(Task::Compile(options)), Wanted::File(file)) => options.file.as_bytes() == *file,
        (Ok(Task::Generate(count)), Wanted::Devices(devices)) => *count == *devices,
        (Ok(Task::Template(table)), Wanted::Template(other)) => *table == *other,
        (Err(WordsStop::Bad { word }), Wanted::Spoilt(number)) => *word == *number,
        _ => false,
    }
}

// The rows are worked out by docs/OPTIONS.md.
static TASKS: [(&[&str], Wanted); 15] = [
    (&["t.asl"], Wanted::File(b"t.asl")),
    (&["-p", "o", "d/t.asl", "-l"], Wanted::File(b"d/t.asl")),
    (&[], Wanted::Spoilt(0)),
    (&["-x"], Wanted::Spoilt(0)),
    (&["--generate", "1"], Wanted::Devices(1)),
    (&["--generate", "4096"], Wanted::Devices(4096)),
    (&["--generate", "4097"], Wanted::Spoilt(1)),
    (&["--generate"], Wanted::Spoilt(1)),
    (&["--generate", "2", "t.asl"], Wanted::Spoilt(2)),
    (&["-T", "hpet"], Wanted::Template(Table::Hpet)),
    (&["-T", "Apic"], Wanted::Template(Table::Apic)),
    (&["-T", "DSDT"], Wanted::Spoilt(1)),
    (&["-T"], Wanted::Spoilt(1)),
    (&["-T", "HPET", "x"], Wanted::Spoilt(2)),
    (&["-tc", "-T", "HPET"], Wanted::Spoilt(1)),
];

fn is_asked(alloc: Global, words: &[&str], wanted: &Wanted) -> Result<bool, AllocError> {
    let mut given = Vec::new(alloc);
    for word in words {
        given.push(String::from_str(alloc, word)?)?;
    }
    Ok(is(&task_of(alloc, &given), wanted))
}

#[test]
fn words_ask_for_these_tasks(rt: HostRuntime) -> Result<(), AllocError> {
    for (words, wanted) in &TASKS {
        assert!(rt; is_asked(rt.alloc(), words, wanted)?);
    }
    Ok(())
}
