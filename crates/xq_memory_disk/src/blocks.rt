//! A list of bytes in blocks of one size: it grows by a block at a time, and what it holds stays
//! where it is.
ghost use Rattle.std.specs.Prelude.{◌≡◌, ◌⊎◌, ◌+◌, ◌*◌, ◌^◌, ◌<◌, ◌≤◌, ℕ, [], length, max, slice_index, take, IfOk, OnOk, OnErr};
ghost use Rattle.sqlite_disk.specs.Disk.{Holds, Torn, Cut};
ghost use Rattle.xq_memory_disk.specs.private.Blocks.{joined, AreFull};

use std::alloc::{AllocError, Global};
use std::marker::Model;

/// How many bytes a block has.
const BLOCK: usize = 65536;

/// Bytes in blocks. Contracts see the list of the bytes.
#[derive(Drop)]
pub struct Blocks {
    blocks: Vec<Vec<u8>>,
    len: usize,
}

impl Model for Blocks {
    ghost use Rattle.std.specs.Prelude.{ℕ, List, take};
    ghost use Rattle.xq_memory_disk.specs.private.Blocks.{joined, HasRoom};

    ghost Value = { List ℕ };

    ghost view = { λ it. take it.len (joined it.blocks.items) };

    ghost invariant = { λ it. HasRoom it.blocks.items it.len };
}

impl Blocks {
    /// No bytes, which take no memory yet.
    pub fn new(alloc: Global) -> Blocks
        ensures { result ≡ [] }
    {
        Blocks {
            blocks: Vec::new(alloc),
            len: 0,
        }
    }

    /// How many bytes there are.
    pub fn len(&self) -> usize
        ensures { result ≡ length self.now }
    {
        self.len
    }

    /// Copies the bytes at the place into the buffer.
    pub fn read(&self, at: usize, buf: &mut [u8])
        requires within { at + length buf.old ≤ length self.now }
        requires fits { at + length buf.old < 2 ^ 64 }
        ensures { Holds self.now at buf.new }
    {
        read_blocks(&self.blocks, at, buf);
    }

    /// Writes the bytes at the place, where the list grows as far as it has to.
    pub fn write(&mut self, at: usize, bytes: &[u8]) -> Result<(), AllocError>
        ensures written { OnOk result (Holds self.new at bytes.now) }
        ensures others { Torn at (length bytes.now) self.old self.new }
    {
        let end = at.checked_add(bytes.len()).ok_or(AllocError)?;
        self.reach(end)?;
        self.overwrite(at, bytes);
        Ok(())
    }

    /// Cuts the list, or lets it grow by bytes of 0.
    pub fn resize(&mut self, len: usize) -> Result<(), AllocError>
        ensures len { OnOk result (length self.new ≡ len) }
        ensures bytes { OnOk result ((i : ℕ) → i < len
            → slice_index self.new i ≡ slice_index self.old i) }
        ensures kept { OnErr result (self.new ≡ self.old) }
        ensures others { Cut len self.old self.new }
    {
        if len < self.len() {
            self.cut(len);
            return Ok(());
        }
        self.grow(len)
    }

    /// Lets the list grow to so many bytes, unless it has them.
    fn reach(&mut self, len: usize) -> Result<(), AllocError>
        ensures len { OnOk result (length self.new ≡ max (length self.old) len) }
        ensures same { (i : ℕ) → slice_index self.new i ≡ slice_index self.old i }
        ensures kept { OnErr result (self.new ≡ self.old) }
    {
        if len > self.len() {
            return self.grow(len);
        }
        Ok(())
    }

    /// Adds bytes of 0, which is also what an index behind the end reads as.
    fn grow(&mut self, len: usize) -> Result<(), AllocError>
        requires { length self.old ≤ len }
        ensures len { OnOk result (length self.new ≡ len) }
        ensures same { (i : ℕ) → slice_index self.new i ≡ slice_index self.old i }
        ensures kept { OnErr result (self.new ≡ self.old) }
    {
        add_blocks(&mut self.blocks, len.div_ceil(BLOCK))?;
        self.len = len;
        Ok(())
    }

    /// Drops the bytes behind the first `len`, and gives the memory of whole blocks back.
    fn cut(&mut self, len: usize)
        requires { len ≤ length self.old }
        ensures { self.new ≡ take len self.old }
    {
        cut_blocks(&mut self.blocks, len);
        self.len = len;
    }

    /// Writes the bytes over others.
    fn overwrite(&mut self, at: usize, bytes: &[u8])
        requires { at + length bytes.now ≤ length self.old }
        ensures len { length self.new ≡ length self.old }
        ensures written { Holds self.new at bytes.now }
        ensures others { (i : ℕ) → (i < at) ⊎ (at + length bytes.now ≤ i)
            → slice_index self.new i ≡ slice_index self.old i }
    {
        write_blocks(&mut self.blocks, at, bytes);
    }
}

/// Adds blocks of zeros until there are so many.
fn add_blocks(blocks: &mut Vec<Vec<u8>>, count: usize) -> Result<(), AllocError>
    requires { AreFull blocks.old.items }
    ensures full { AreFull blocks.new.items }
    ensures more { length blocks.old.items ≤ length blocks.new.items }
    ensures enough { OnOk result (count ≤ length blocks.new.items) }
    ensures same { (i : ℕ)
        → slice_index (joined blocks.new.items) i ≡ slice_index (joined blocks.old.items) i }
{
    for _ in blocks.len()..count {
        add_block(blocks)?;
    }
    Ok(())
}

/// Adds a block of zeros.
fn add_block(blocks: &mut Vec<Vec<u8>>) -> Result<(), AllocError>
    requires { AreFull blocks.old.items }
    ensures full { AreFull blocks.new.items }
    ensures more { OnOk result (length blocks.new.items ≡ length blocks.old.items + 1) }
    ensures kept { OnErr result (blocks.new.items ≡ blocks.old.items) }
    ensures same { (i : ℕ)
        → slice_index (joined blocks.new.items) i ≡ slice_index (joined blocks.old.items) i }
{
    let block = zeros(*blocks.allocator(), BLOCK)?;
    blocks.push(block)?;
    Ok(())
}

/// So many bytes, each 0.
fn zeros(alloc: Global, len: usize) -> Result<Vec<u8>, AllocError>
    ensures len { IfOk result (λ bytes. length bytes.items ≡ len) }
    ensures zeros { IfOk result (λ bytes. (i : ℕ) → slice_index bytes.items i ≡ 0) }
{
    vec![in alloc; 0; len]
}

/// Drops the blocks behind the first `len` bytes, and clears the end of the last.
fn cut_blocks(blocks: &mut Vec<Vec<u8>>, len: usize)
    requires full { AreFull blocks.old.items }
    requires within { len ≤ 65536 * length blocks.old.items }
    ensures full { AreFull blocks.new.items }
    ensures within { len ≤ 65536 * length blocks.new.items }
    ensures below { (i : ℕ) → i < len
        → slice_index (joined blocks.new.items) i ≡ slice_index (joined blocks.old.items) i }
    ensures clear { (i : ℕ) → len ≤ i → slice_index (joined blocks.new.items) i ≡ 0 }
{
    blocks.truncate(len.div_ceil(BLOCK));
    if len % BLOCK == 0 {
        return;
    }
    clear_end(&mut blocks[len / BLOCK], len % BLOCK);
}

/// Clears the bytes of the block from the place on.
fn clear_end(block: &mut Vec<u8>, from: usize)
    requires { from ≤ length block.old.items }
    ensures len { length block.new.items ≡ length block.old.items }
    ensures below { (r : ℕ) → r < from
        → slice_index block.new.items r ≡ slice_index block.old.items r }
    ensures clear { (r : ℕ) → from ≤ r → slice_index block.new.items r ≡ 0 }
{
    clear(&mut block[from..]);
}

/// Makes each byte 0.
fn clear(bytes: &mut [u8])
    ensures len { length bytes.new ≡ length bytes.old }
    ensures clear { (i : ℕ) → slice_index bytes.new i ≡ 0 }
{
    bytes.fill(0);
}

/// Copies the bytes at the place into the buffer.
fn read_blocks(blocks: &[Vec<u8>], at: usize, buf: &mut [u8])
    requires full { AreFull blocks.now }
    requires within { at + length buf.old ≤ 65536 * length blocks.now }
    requires fits { at + length buf.old < 2 ^ 64 }
    ensures { (k : ℕ) → k < length buf.new
        → slice_index buf.new k ≡ slice_index (joined blocks.now) (at + k) }
{
    let mut done = 0;
    while done < buf.len() {
        done += read_piece(blocks, at + done, &mut buf[done..]);
    }
}

/// Copies what the block at the place has for the buffer, and answers how many bytes that is.
fn read_piece(blocks: &[Vec<u8>], at: usize, buf: &mut [u8]) -> usize
    requires full { AreFull blocks.now }
    requires some { 0 < length buf.old }
    requires within { at + length buf.old ≤ 65536 * length blocks.now }
    ensures some { 0 < result }
    ensures bound { result ≤ length buf.old }
    ensures len { length buf.new ≡ length buf.old }
    ensures read { (k : ℕ) → k < result
        → slice_index buf.new k ≡ slice_index (joined blocks.now) (at + k) }
{
    let from = at % BLOCK;
    let n = buf.len().min(BLOCK - from);
    copy_part(&blocks[at / BLOCK], from, &mut buf[..n]);
    n
}

/// Fills the buffer from the block, from the place on.
fn copy_part(block: &[u8], from: usize, buf: &mut [u8])
    requires { from + length buf.old ≤ length block.now }
    ensures len { length buf.new ≡ length buf.old }
    ensures copied { (k : ℕ) → k < length buf.new
        → slice_index buf.new k ≡ slice_index block.now (from + k) }
{
    buf.copy_from_slice(&block[from..from + buf.len()]);
}

/// Writes the bytes at the place.
fn write_blocks(blocks: &mut [Vec<u8>], at: usize, bytes: &[u8])
    requires full { AreFull blocks.old }
    requires within { at + length bytes.now ≤ 65536 * length blocks.old }
    requires fits { at + length bytes.now < 2 ^ 64 }
    ensures full { AreFull blocks.new }
    ensures len { length blocks.new ≡ length blocks.old }
    ensures written { (k : ℕ) → k < length bytes.now
        → slice_index (joined blocks.new) (at + k) ≡ slice_index bytes.now k }
    ensures others { (i : ℕ) → (i < at) ⊎ (at + length bytes.now ≤ i)
        → slice_index (joined blocks.new) i ≡ slice_index (joined blocks.old) i }
{
    let mut done = 0;
    while done < bytes.len() {
        done += write_piece(blocks, at + done, &bytes[done..]);
    }
}

/// Writes what the block at the place takes of the bytes, and answers how many that is.
fn write_piece(blocks: &mut [Vec<u8>], at: usize, bytes: &[u8]) -> usize
    requires full { AreFull blocks.old }
    requires some { 0 < length bytes.now }
    requires within { at + length bytes.now ≤ 65536 * length blocks.old }
    ensures some { 0 < result }
    ensures bound { result ≤ length bytes.now }
    ensures full { AreFull blocks.new }
    ensures len { length blocks.new ≡ length blocks.old }
    ensures written { (k : ℕ) → k < result
        → slice_index (joined blocks.new) (at + k) ≡ slice_index bytes.now k }
    ensures others { (i : ℕ) → (i < at) ⊎ (at + result ≤ i)
        → slice_index (joined blocks.new) i ≡ slice_index (joined blocks.old) i }
{
    let from = at % BLOCK;
    let n = bytes.len().min(BLOCK - from);
    write_part(&mut blocks[at / BLOCK], from, &bytes[..n]);
    n
}

/// Writes the bytes into the block, from the place on.
fn write_part(block: &mut Vec<u8>, from: usize, bytes: &[u8])
    requires { from + length bytes.now ≤ length block.old.items }
    ensures len { length block.new.items ≡ length block.old.items }
    ensures written { (k : ℕ) → k < length bytes.now
        → slice_index block.new.items (from + k) ≡ slice_index bytes.now k }
    ensures others { (r : ℕ) → (r < from) ⊎ (from + length bytes.now ≤ r)
        → slice_index block.new.items r ≡ slice_index block.old.items r }
{
    block[from..from + bytes.len()].copy_from_slice(bytes);
}
