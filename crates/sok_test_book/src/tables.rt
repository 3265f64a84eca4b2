//! Tables that are opened as a book, or that are refused.

use sok_book::fault::BookFault;
use sok_sql::making::create;
use sok_store::book::{Book, OpenRefused};
use sok_store::rule::{Rule, broken_rule};
use sqlite::{Connection, MemStore};
use std::alloc::Global;
use std::process::Abort;
use std::test::Fail;

/// A table whose columns take any value, with a level as it was added, and one whose best is
/// proved.
const TWO_LEVELS: &str = "
CREATE TABLE level (id, text, title, lurd, pushes, moves, verdict);
INSERT INTO level VALUES (1, '#####\n#@$.#\n#####\n', NULL, NULL, NULL, NULL, 0);
INSERT INTO level VALUES (2, '###\n#@#\n#$#\n#.#\n###\n', x'41', 'D', 1, 1, 1);
";

type Opened = Result<Book<MemStore>, OpenRefused<MemStore>>;

/// Opens a connection as a book.
fn opened(alloc: Global, connection: Connection<MemStore>) -> Result<Opened, Fail> {
    if !connection.is_autocommit() {
        return Err("a transaction is open".into());
    }
    Ok(Book::open(alloc, connection))
}

/// Opens the table that a text makes as a book.
fn made(alloc: Global, sql: &str) -> Result<Opened, Fail> {
    let mut connection = Connection::open_in_memory(alloc)?;
    connection.execute_batch(sql)?;
    opened(alloc, connection)
}

/// Returns why the two levels are no book after the second is changed, and which rule is broken.
fn fault_with(alloc: Global, change: &str) -> Result<Option<(BookFault, Option<Rule>)>, Fail> {
    let sql = format!(in alloc; "{TWO_LEVELS} UPDATE level SET {change} WHERE id = 2")?;
    match made(alloc, sql.as_str())? {
        Ok(_) => Ok(None),
        Err(mut refused) => {
            let fault = refused.fault;
            Ok(Some((fault, rule_for(alloc, &mut refused.connection, fault))))
        }
    }
}

fn rule_for(
    alloc: Global,
    connection: &mut Connection<MemStore>,
    fault: BookFault,
) -> Option<Rule> {
    match fault {
        BookFault::BadBook(id) => broken_rule(connection, alloc, id),
        _ => None,
    }
}

#[test]
fn the_first_bad_row_is_named(rt: HostRuntime) -> Result<(), Fail> {
    for &(change, id, rule) in &[
        ("id = 3", 3, Rule::Ids),
        ("id = 1", 1, Rule::Ids),
        ("id = 0", 0, Rule::Ids),
        ("id = -1", -1, Rule::Ids),
        // an id that is no whole number is reported as the row's place
        ("id = 2.0", 2, Rule::Kinds),
        ("id = '2'", 2, Rule::Ids),
        ("id = NULL", 1, Rule::Ids),
        ("text = '###\n#@#\n#$#\n#.#\n###'", 2, Rule::Text),
        ("text = '###\r\n#@#\n#$#\n#.#\n###\n'", 2, Rule::Text),
        ("text = '### \n#@#\n#$#\n#.#\n###\n'", 2, Rule::Text),
        ("text = '###\n#@#\n#$#\n#.#\n'", 2, Rule::Text),
        ("text = '#####\n#@$.#\n#####\n', lurd = 'R'", 2, Rule::Once),
        ("text = NULL", 2, Rule::Kinds),
        ("text = x'41'", 2, Rule::Kinds),
        ("title = x''", 2, Rule::Title),
        ("title = x'410A42'", 2, Rule::Title),
        ("title = x'410D'", 2, Rule::Title),
        ("title = x'2041'", 2, Rule::Title),
        ("title = x'4109'", 2, Rule::Title),
        ("title = 'A'", 2, Rule::Kinds),
        ("lurd = 'd'", 2, Rule::Best),
        ("lurd = 'D '", 2, Rule::Best),
        ("lurd = 'x'", 2, Rule::Best),
        ("lurd = 'u'", 2, Rule::Best),
        ("lurd = '', pushes = 0, moves = 0", 2, Rule::Best),
        ("lurd = x'44'", 2, Rule::Kinds),
        ("lurd = NULL", 2, Rule::Best),
        ("pushes = 2", 2, Rule::Best),
        ("pushes = NULL", 2, Rule::Best),
        ("moves = 2", 2, Rule::Best),
        ("moves = '1'", 2, Rule::Kinds),
        ("moves = NULL", 2, Rule::Best),
        ("lurd = NULL, pushes = NULL, moves = NULL", 2, Rule::Verdict),
        ("verdict = 2", 2, Rule::Verdict),
        ("verdict = 3", 2, Rule::Verdict),
        ("verdict = -1", 2, Rule::Kinds),
        ("verdict = NULL", 2, Rule::Kinds),
    ] {
        let found = fault_with(rt.alloc(), change)?;
        let bad = Some((BookFault::BadBook(id), Some(rule)));
        assert_eq!(rt; found, bad, "of {change}");
    }
    Ok(())
}

#[test]
fn tables_that_keep_the_rules_are_opened(rt: HostRuntime) -> Result<(), Fail> {
    for &change in &[
        "id = 2",
        "title = NULL",
        "title = x'4109FF'",
        "verdict = 0",
        "lurd = NULL, pushes = NULL, moves = NULL, verdict = 2",
    ] {
        assert_eq!(rt; fault_with(rt.alloc(), change)?, None, "of {change}");
    }
    Ok(())
}

/// Returns why a connection is not opened as a book.
pub(crate) fn fault_of(
    alloc: Global,
    connection: Connection<MemStore>,
) -> Result<Option<BookFault>, Fail> {
    match opened(alloc, connection)? {
        Ok(_) => Ok(None),
        Err(refused) => Ok(Some(refused.fault)),
    }
}

/// Returns why a row is no book in the table that a book makes.
fn fault_in_its_own(alloc: Global, values: &str) -> Result<Option<BookFault>, Fail> {
    let mut connection = Connection::open_in_memory(alloc)?;
    create(&mut connection)?;
    let row = format!(in alloc; "INSERT INTO level VALUES ({values})")?;
    connection.execute_batch(row.as_str())?;
    fault_of(alloc, connection)
}

/// A row with the first id, one with the second, and one with a verdict that wants a best.
#[test]
fn one_row_in_the_table_of_a_book(rt: HostRuntime) -> Result<(), Fail> {
    for &(values, fault) in &[
        (
            "1, '#####\n#@$.#\n#####\n', NULL, NULL, NULL, NULL, 0",
            None,
        ),
        (
            "2, '#####\n#@$.#\n#####\n', NULL, NULL, NULL, NULL, 0",
            Some(BookFault::BadBook(2)),
        ),
        (
            "1, '#####\n#@$.#\n#####\n', NULL, NULL, NULL, NULL, 1",
            Some(BookFault::BadBook(1)),
        ),
    ] {
        let found = fault_in_its_own(rt.alloc(), values)?;
        assert_eq!(rt; found, fault, "of {values}");
    }
    Ok(())
}

/// Asserts that the table still has its one name.
fn assert_kept(rt: &impl Abort, connection: &mut Connection<MemStore>) -> Result<(), Fail> {
    let rows = connection.query_all("SELECT name FROM level", &[])?;
    assert_eq!(rt; rows.len(), 1);
    let name: String = rows[0].get(0)?;
    assert_eq!(rt; name.as_str(), "kept");
    Ok(())
}

#[test]
fn a_table_with_other_columns_stays(rt: HostRuntime) -> Result<(), Fail> {
    let sql = "CREATE TABLE level (name); INSERT INTO level VALUES ('kept')";
    let Err(mut refused) = made(rt.alloc(), sql)? else {
        return Err("it was opened".into());
    };
    assert_eq!(rt; refused.fault, BookFault::Database);
    assert_kept(&rt, &mut refused.connection)
}
