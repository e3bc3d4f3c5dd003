// One case: a file with a name, and a line that says what its check answers. A name and a file go side by side, as the
// columns of a table; a struct of the two would be no plainer.
use catalogue::checked::Catalogue;
use checker::check;
use samples::draft::Draft;
use std::io;

fn judge(rt: &HostRuntime, name: &str, file: &[u8]) -> io::Result<()> {
    let mut held = Catalogue::built_in();
    // Both sides print by their own `Display`: a type over the two would be no plainer.
    match check(file, &mut held) {
        Ok(counts) => println!(rt; "{name}: {counts}"),
        Err(fault) => println!(rt; "{name}: {fault}"),
    }
}

// A file that has no end yet: it is ended first.
pub fn case(rt: &HostRuntime, name: &str, file: Draft) -> io::Result<()> {
    judge(rt, name, file.end()?.as_slice())
}

// A file as it is.
pub fn bare(rt: &HostRuntime, name: &str, file: Draft) -> io::Result<()> {
    judge(rt, name, file.as_slice())
}

// A file without its last byte.
pub fn cut(rt: &HostRuntime, name: &str, file: Draft) -> io::Result<()> {
    judge(rt, name, file.cut().as_slice())
}
