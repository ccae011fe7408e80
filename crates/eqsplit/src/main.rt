// The program over the engine: reads `terms.tab` and `literals.tab`, as much of them as the buffers hold, judges what it read, and prints.

#![tactic(auto)]

// The bytes of a term.
const TERM: usize = 16;

// The bytes of terms that are read: those of one term more than a call takes, so that the engine sees a table that is too long.
const TERMS: usize = 257 * TERM;

// The bytes of literals, likewise: a call takes 1,024 of 8 bytes.
const LITERALS: usize = 1025 * 8;

// What is lent for the partition: a class number of 2 bytes for each term.
const PARTITION: usize = 256 * 2;

// What is lent for added terms: a call adds 255 at most.
const ADDED: usize = 255 * TERM;

// What is lent for clauses: 4,096 records of 8 bytes.
const CLAUSES: usize = 4096 * 8;

// Room for the text of the longest answer that these hold.
const TEXT: usize = 65536;

// The program's exit status is 0 in any case, so standard error says where the output is not whole.
fn print(rt: &HostRuntime, text: &[u8]) {
    if files::put(&mut rt.stdout(), text) < text.len() {
        files::put(
            &mut rt.stderr(),
            b"eqsplit: the output was not written whole\n",
        );
    }
}

// The engine's answer on two tables, printed.
fn judge(rt: &HostRuntime, terms: &[u8], literals: &[u8]) {
    let mut partition = [0u8; PARTITION];
    let mut added = [0u8; ADDED];
    let mut clauses = [0u8; CLAUSES];
    let answer = engine::split(terms, literals, &mut partition, &mut added, &mut clauses);
    let mut text = [0u8; TEXT];
    let length = report::report(
        answer,
        terms.len() / TERM,
        &partition,
        &added,
        &clauses,
        &mut text,
    );
    print(rt, &text[..length]);
}

fn main(rt: HostRuntime) {
    let mut terms = [0u8; TERMS];
    let mut literals = [0u8; LITERALS];
    let Some(n) = files::load(&rt, b"terms.tab", &mut terms) else {
        print(&rt, b"no file terms.tab\n");
        return;
    };
    let Some(m) = files::load(&rt, b"literals.tab", &mut literals) else {
        print(&rt, b"no file literals.tab\n");
        return;
    };
    judge(&rt, &terms[..n], &literals[..m]);
}
