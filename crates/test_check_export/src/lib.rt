// The check of a table's words as a C function, for the bench only: no header declares it and the archive for the firmware doesn't
// have it (`firmware/make-archive test_check_export` makes an archive of its own). Every run begins with this check. Here it is measured by
// itself, beside the check of bytes.
#![tactic(auto)]

ghost use Rattle.std.specs.Prelude.{◌≡◌};
ghost use Rattle.machine.specs.Check.{table_code};

use result_code::code;

// Checks arbitrary words as a table and returns 0, or document 01's 2 to 5.
// C: uint32_t balkwizu_test_check(const uint32_t *table, size_t table_len)
#[unsafe(no_mangle)]
pub extern "C" fn balkwizu_test_check(table: &[u32]) -> u32
    ensures { result ≡ table_code table.now }
{
    let checked = table_check::check(table);
    code(checked)
}
