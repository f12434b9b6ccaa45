// The primitives under names that C can call, for bench/ and tests/.
#![tactic(auto)]

ghost use Rattle.std.specs.Prelude.{◌≡◌, ℕ};
ghost use Rattle.sha256.specs.Sha.{digest_of};
ghost use Rattle.sha256_four.specs.FourDigests.{digests};
ghost use Rattle.gf64.specs.Field.{fold_bytes};
ghost use Rattle.gf64.specs.Table.{key_table};
ghost use Rattle.bench.specs.Folds.{folds_where};
ghost use Rattle.bench.specs.Rows.{rows_where};
ghost use Rattle.chacha20.specs.ChaCha.{block_of};
ghost use Rattle.chacha20_four.specs.FourStates.{blocks_of};

#[unsafe(no_mangle)]
pub extern "C" fn bench_chacha20_one(
    key: &[u8; 32],
    counter: u32,
    nonce: &[u8; 12],
    out: &mut [u8; 64],
)
    ensures { out.new ≡ block_of key.now counter nonce.now }
{
    *out = chacha20::one::block(key, counter, nonce);
}

#[unsafe(no_mangle)]
pub extern "C" fn bench_chacha20_four(
    keys: &[u32; 32],
    counter: u32,
    nonce: &[u8; 12],
    out: &mut [u32; 64],
)
    ensures { out.new ≡ blocks_of keys.now counter nonce.now }
{
    *out = chacha20_four::block(keys, counter, nonce);
}

#[unsafe(no_mangle)]
pub extern "C" fn bench_sha256_one(m: &[u8], out: &mut [u8; 32])
    ensures { out.new ≡ digest_of m.now }
{
    *out = sha256::one::digest(m);
}

#[unsafe(no_mangle)]
pub extern "C" fn bench_sha256_four(m: &[u8; 128], out: &mut [u8; 128])
    ensures { out.new ≡ digests m.now }
{
    *out = sha256_four::digest(*m);
}

#[unsafe(no_mangle)]
pub extern "C" fn bench_fold(key: u64, s: &[u8]) -> u64
    ensures { result ≡ fold_bytes key s.now }
{
    gf64::fold(key, s)
}

#[unsafe(no_mangle)]
pub extern "C" fn bench_fold_table(key: u64, table: &mut [u32; 512])
    ensures { table.new ≡ key_table key }
{
    *table = gf64::table(key);
}

// The folds of four columns by the table of a key, or of none where the lengths do not fit: out is then as it was. (Where they fit and the
// table is no key's, which four numbers out holds is left open: paper 01 knows no such table.)
#[unsafe(no_mangle)]
pub extern "C" fn bench_fold_four(table: &[u32; 512], s: &[u8], len: usize, out: &mut [u64; 4])
    ensures { (g : ℕ) → table.now ≡ key_table g → out.new ≡ folds_where g len s.now out.old }
{
    if len == s.len() / 4 && s.len() % 4 == 0 {
        *out = gf64::fold_four(table, len, s);
    }
}

// The 64 rows of a block of a table of columns of len bytes, or rows as they were where a length does not fit.
#[unsafe(no_mangle)]
pub extern "C" fn bench_block_rows(len: usize, table: &[u8], block: u32, rows: &mut [u8])
    ensures { rows.new ≡ rows_where len block table.now rows.old }
{
    let at = 8 * (block as usize);
    if len <= 65536 && table.len() == 128 * len && at + 8 <= len && rows.len() == 1024 {
        rows::block_rows(len, table, at, rows);
    }
}
