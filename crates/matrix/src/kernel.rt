// Products of matrices, by blocks of up to four rows and four columns whose sums stay in registers. Each entry
// adds its products in the order of k, from +0.0, as the Rust does.
ghost use Rattle.std.specs.Prelude.{◌≡◌, ◌+◌, ◌*◌, ◌≤◌, ◌<◌, length, take, drop};
ghost use Rattle.loops.specs.Loop.{tab, ◌!◌};
ghost use Rattle.float.specs.Arith.{◌⊕◌, ◌⊗◌};
ghost use Rattle.matrix.specs.Calls.{row};
ghost use Rattle.matrix.specs.Products.{entry, framed};

// A matrix that is read, row by row: its entries, how many rows it has, and how many places a row.
#[derive(Clone, Copy)]
pub struct Rows<'a> {
    pub entries: &'a [f64],
    pub rows: usize,
    pub width: usize,
    ghost small: { (rows ≤ 20) × (width ≤ 20) },
    ghost full: { length entries.now ≡ rows * width },
}

// Where w places of row i begin, at column j.
pub fn span(i: usize, j: usize, w: usize, rows: usize, width: usize) -> usize
    requires { (i < rows) × (j + w ≤ width) × (rows ≤ 20) × (width ≤ 20) }
    ensures { (result ≡ i * width + j) × (result + w ≤ rows * width) }
{
    i * width + j
}

// Where r rows begin, from row i on.
fn rows_from(i: usize, r: usize, rows: usize, width: usize) -> usize
    requires { (i + r ≤ rows) × (rows ≤ 20) × (width ≤ 20) }
    ensures { (result ≡ i * width) × (result + r * width ≤ rows * width) }
{
    i * width
}

impl<'a> Rows<'a> {
    // Row i.
    pub fn row(&self, i: usize) -> &'a [f64]
        requires { i < self.now.rows }
        ensures value { result.now ≡ row self.now.entries.now self.now.width i }
        ensures len { length result.now ≡ self.now.width }
    {
        let start = span(i, 0, self.width, self.rows, self.width);
        &self.entries[start..start + self.width]
    }

    // R rows, from row i on.
    fn part<const R: usize>(&self, i: usize) -> Rows<'a>
        requires { i + R ≤ self.now.rows }
        ensures rows { (result.rows ≡ R) × (result.width ≡ self.now.width) }
        ensures entries { result.entries.now ≡ take (R * self.now.width) (drop (i * self.now.width) self.now.entries.now) }
    {
        let start = rows_from(i, R, self.rows, self.width);
        Rows {
            entries: &self.entries[start..start + R * self.width],
            rows: R,
            width: self.width,
        }
    }
}

// The next product of each of a row's sums.
fn add_products<const W: usize>(sums: &mut [f64; W], value: f64, right: &[f64])
    requires { length right.now ≡ W }
    ensures { sums.new ≡ tab W (λ j. sums.old ! j ⊕ value ⊗ right.now ! j) }
{
    for (j, x) in sums.iter_mut().enumerate() {
        *x += value * right[j];
    }
}

// A block of the product of all rows of left: W columns, from column `from` of right on.
#[inline(always)]
fn block<const R: usize, const W: usize>(left: &Rows, right: &Rows, from: usize) -> [[f64; W]; R]
    requires { (left.now.rows ≡ R) × (right.now.rows ≤ left.now.width) × (from + W ≤ right.now.width) }
    ensures { result ≡ tab R (λ r. tab W (λ c. entry right.now.rows left.now.entries.now left.now.width right.now.entries.now right.now.width r (from + c))) }
{
    let mut sums = [[0.0; W]; R];
    for k in 0..right.rows {
        let start = span(k, from, W, right.rows, right.width);
        let row = &right.entries[start..start + W];
        for r in 0..R {
            let place = span(r, k, 1, left.rows, left.width);
            add_products(&mut sums[r], left.entries[place], row);
        }
    }
    sums
}

// Writes a row of a block.
fn put_row<const W: usize>(row: &[f64; W], out: &mut [f64])
    requires { length out.old ≡ W }
    ensures { out.new ≡ row.now }
{
    for (j, x) in out.iter_mut().enumerate() {
        *x = row[j];
    }
}

// Writes a block into the same columns of R rows.
#[inline(always)]
pub fn put<const R: usize, const W: usize>(
    left: &Rows,
    right: &Rows,
    from: usize,
    out: &mut [f64],
    width: usize,
)
    requires { (left.now.rows ≡ R) × (right.now.rows ≤ left.now.width) × (from + W ≤ right.now.width) × (from + W ≤ width) × (width ≤ 20) × (length out.old ≡ R * width) }
    ensures { out.new ≡ framed R width 0 R from W (entry right.now.rows left.now.entries.now left.now.width right.now.entries.now right.now.width) out.old }
{
    let sums = block::<R, W>(left, right, from);
    for r in 0..R {
        let start = span(r, from, W, R, width);
        put_row(&sums[r], &mut out[start..start + W]);
    }
}

// R rows of the product, its first columns.
#[inline(always)]
fn strip<const R: usize>(left: &Rows, right: &Rows, columns: usize, out: &mut [f64], width: usize)
    requires { (left.now.rows ≡ R) × (right.now.rows ≤ left.now.width) × (columns ≤ right.now.width) × (columns ≤ width) × (width ≤ 20) × (length out.old ≡ R * width) }
    ensures { out.new ≡ framed R width 0 R 0 columns (entry right.now.rows left.now.entries.now left.now.width right.now.entries.now right.now.width) out.old }
{
    let mut from = 0;
    while from + 4 <= columns {
        put::<R, 4>(left, right, from, out, width);
        from += 4;
    }
    match columns - from {
        1 => put::<R, 1>(left, right, from, out, width),
        2 => put::<R, 2>(left, right, from, out, width),
        3 => put::<R, 3>(left, right, from, out, width),
        _ => (),
    }
}

// The same of R rows from row i of left on.
fn strip_at<const R: usize>(
    left: &Rows,
    right: &Rows,
    columns: usize,
    out: &mut [f64],
    width: usize,
    i: usize,
)
    requires { (i + R ≤ left.now.rows) × (right.now.rows ≤ left.now.width) × (columns ≤ right.now.width) × (columns ≤ width) × (width ≤ 20) × (length out.old ≡ left.now.rows * width) }
    ensures { out.new ≡ framed left.now.rows width i R 0 columns (entry right.now.rows left.now.entries.now left.now.width right.now.entries.now right.now.width) out.old }
{
    let start = rows_from(i, R, left.rows, width);
    strip::<R>(
        &left.part::<R>(i),
        right,
        columns,
        &mut out[start..start + R * width],
        width,
    );
}

// The first columns of left times right; the others of out stay as they are.
fn rows_product(left: &Rows, right: &Rows, columns: usize, out: &mut [f64], width: usize)
    requires { (right.now.rows ≤ left.now.width) × (columns ≤ right.now.width) × (columns ≤ width) × (width ≤ 20) × (length out.old ≡ left.now.rows * width) }
    ensures { out.new ≡ framed left.now.rows width 0 left.now.rows 0 columns (entry right.now.rows left.now.entries.now left.now.width right.now.entries.now right.now.width) out.old }
{
    let mut i = 0;
    while i + 4 <= left.rows {
        strip_at::<4>(left, right, columns, out, width, i);
        i += 4;
    }
    match left.rows - i {
        1 => strip_at::<1>(left, right, columns, out, width, i),
        2 => strip_at::<2>(left, right, columns, out, width, i),
        3 => strip_at::<3>(left, right, columns, out, width, i),
        _ => (),
    }
}

// The same. One row is one strip, with no loop around it.
#[inline(always)]
pub fn product(left: &Rows, right: &Rows, columns: usize, out: &mut [f64], width: usize)
    requires { (right.now.rows ≤ left.now.width) × (columns ≤ right.now.width) × (columns ≤ width) × (width ≤ 20) × (length out.old ≡ left.now.rows * width) }
    ensures { out.new ≡ framed left.now.rows width 0 left.now.rows 0 columns (entry right.now.rows left.now.entries.now left.now.width right.now.entries.now right.now.width) out.old }
{
    if left.rows == 1 {
        strip::<1>(left, right, columns, out, width);
    } else {
        rows_product(left, right, columns, out, width);
    }
}
