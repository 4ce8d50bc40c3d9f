// The calls for programs in C and Rust, in the archive libernavluq.a. Each promises what the call behind it does; include/ernavluq.h declares them.
// Their names have a prefix, because nothing keeps an exported name apart from those of the C library, and the release behind it: what was compiled for another
// release does not link. Callers write the plain names, which the header maps.
#![tactic(auto)]

ghost use Rattle.pointer_promises.specs.Promises as Pointer;
ghost use Rattle.grid_promises.specs.Promises as Grid;
ghost use Rattle.grid_promises.specs.Calls.{block};
ghost use Rattle.grid_promises.specs.Conversion.{Convert};
ghost use Rattle.fragment_promises.specs.Promises.{Start, Lump, Finishes, Misses};

#[unsafe(no_mangle)]
pub extern "C" fn ernavluq_pointer_read_r2(
    n: usize,
    cells: &[u8],
    metadata: &[u8],
    out: &mut [u8],
) -> pointer_promises::ReadAnswer
    ensures { Pointer.Read n cells.now metadata.now out.old result out.new }
{
    pointer::read(n, cells, metadata, out)
}

#[unsafe(no_mangle)]
pub extern "C" fn ernavluq_pointer_write_r2(
    n: usize,
    data: &[u8],
    mask: &[u8],
    values: &[u8],
    cells: &mut [u8],
    metadata: &mut [u8],
) -> pointer_promises::WriteAnswer
    ensures { Pointer.Write n «data».now mask.now values.now cells.old metadata.old result cells.new metadata.new }
{
    pointer::write(n, data, mask, values, cells, metadata)
}

#[unsafe(no_mangle)]
pub extern "C" fn ernavluq_grid_read_r2(
    rows: usize,
    columns: usize,
    k: usize,
    cells: &[u64],
    counters: &[u8],
    out: &mut [u64],
) -> grid_promises::ReadAnswer
    ensures { Grid.Read rows columns k cells.now counters.now out.old result out.new }
{
    grid::read(rows, columns, k, cells, counters, out)
}

#[unsafe(no_mangle)]
pub extern "C" fn ernavluq_grid_plan_r2(
    rows: usize,
    columns: usize,
    k: usize,
    data: &[u64],
    mask: &[u64],
    values: &[u64],
    counters: &mut [u8],
) -> grid_promises::Answer
    ensures { Grid.Plan (block rows columns «data».now mask.now values.now) k counters.old result counters.new }
{
    grid::plan(rows, columns, k, data, mask, values, counters)
}

#[unsafe(no_mangle)]
pub extern "C" fn ernavluq_grid_store_r2(
    rows: usize,
    columns: usize,
    k: usize,
    data: &[u64],
    mask: &[u64],
    values: &[u64],
    counters: &[u8],
    cells: &mut [u64],
) -> grid_promises::Answer
    ensures { Grid.Store (block rows columns «data».now mask.now values.now) k counters.now cells.old result cells.new }
{
    grid::store(rows, columns, k, data, mask, values, counters, cells)
}

#[unsafe(no_mangle)]
pub extern "C" fn ernavluq_grid_convert_r2(
    rows: usize,
    columns: usize,
    k: usize,
    to: usize,
    counters: &[u8],
    out: &mut [u8],
) -> grid_promises::ConvertAnswer
    ensures { Convert rows columns k to counters.now out.old result out.new }
{
    grid::convert(rows, columns, k, to, counters, out)
}

#[unsafe(no_mangle)]
pub extern "C" fn ernavluq_transfer_start_r2(
    transfer: &mut fragment_promises::Transfer,
    rows: usize,
    columns: usize,
    k: usize,
) -> usize
    ensures { Start rows columns k result transfer.new }
{
    fragments::start_at(transfer, rows, columns, k)
}

#[unsafe(no_mangle)]
pub extern "C" fn ernavluq_transfer_lump_r2(
    transfer: &mut fragment_promises::Transfer,
    bytes: &[u8],
) -> usize
    ensures { Lump transfer.old bytes.now result transfer.new }
{
    fragments::lump_at(transfer, bytes)
}

#[unsafe(no_mangle)]
pub extern "C" fn ernavluq_transfer_finish_r2(
    transfer: &fragment_promises::Transfer,
    out: &mut [u64],
) -> grid_promises::ReadAnswer
    ensures { Finishes transfer.now out.old result out.new }
{
    fragments::finish_at(transfer, out)
}

#[unsafe(no_mangle)]
pub extern "C" fn ernavluq_transfer_missing_r2(
    transfer: &fragment_promises::Transfer,
) -> fragment_promises::MissingAnswer
    ensures { Misses transfer.now result }
{
    fragments::missing(transfer.rows, transfer.columns, transfer.k, transfer.taken)
}
