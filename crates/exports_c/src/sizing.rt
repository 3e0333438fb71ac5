// What a caller has to lend, and tables of logarithms.
ghost use Rattle.std.specs.Prelude.{◌≡◌, length};
ghost use Rattle.rules.specs.Answers.{count_answer};
ghost use Rattle.log_table.specs.House.{house_table, House};
ghost use Rattle.log_table.specs.Logs.{log_answer, logs_out};
ghost use Rattle.exports.specs.Level.{settings_of};
ghost use Rattle.exports.specs.Told.{number_told, value_told};
ghost use Rattle.exports.specs.Sizes.{sizes_number, sizes_after};

// How many buckets so many keys get. 0: count has the number.
#[unsafe(no_mangle)]
pub extern "C" fn phastr_bucket_count(
    log2_slice_len: u64,
    keys: u64,
    size: f64,
    count: &mut u64,
) -> u64
    ensures answer { result ≡ number_told (count_answer log2_slice_len keys size) }
    ensures counted { count.new ≡ value_told (count_answer log2_slice_len keys size) count.old }
{
    exports::sizing::phastr_bucket_count(log2_slice_len, keys, size, count)
}

// What a sweep of a largest bucket of z keys wants lent. 0: sizes has the work words W, the table's entries and the
// bitmap's words. 10 where z is above 4,096.
#[unsafe(no_mangle)]
pub extern "C" fn phastr_sizes(
    m: u64,
    log2_slice_len: u64,
    ll: u64,
    sb: u64,
    buckets: u64,
    z: u64,
    sizes: &mut [u64; 3],
) -> u64
    ensures answer { result ≡ sizes_number (settings_of m log2_slice_len ll sb buckets) z }
    ensures sized { sizes.new ≡ sizes_after (settings_of m log2_slice_len ll sb buckets) z sizes.old }
{
    exports::sizing::phastr_sizes(m, log2_slice_len, ll, sb, buckets, z, sizes)
}

// Writes the house table.
#[unsafe(no_mangle)]
pub extern "C" fn phastr_house_table(table: &mut [u32; 2048])
    ensures { (table.new ≡ house_table) × House table.new }
{
    exports::sizing::phastr_house_table(table);
}

// Fills a table of logarithms, of the length lent. 21 where that is 0 or above 131,072.
#[unsafe(no_mangle)]
pub extern "C" fn phastr_log_table(table: &mut [u32]) -> u64
    ensures answer { result ≡ number_told (log_answer (length table.old)) }
    ensures buffer { table.new ≡ logs_out table.old }
{
    exports::sizing::phastr_log_table(table)
}
