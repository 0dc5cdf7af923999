// The list of diagnostics as a lent slice of records.
ghost use Rattle.std.specs.Prelude.{◌≡◌, length};
ghost use Rattle.tables.specs.Tables.{diagnostic_at, tabulate};

pub use tables::Diagnostic;
use tables::Entry;

// The entries of a diagnostic table, one for each record; zero where the table has none.
pub fn lay(list: &mut [Diagnostic], table: &[u8])
    ensures { list.new ≡ tabulate (length list.old) (diagnostic_at table.now) }
{
    for (i, record) in list.iter_mut().enumerate() {
        *record = Diagnostic::at(table, i);
    }
}
