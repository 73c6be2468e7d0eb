//! The built-in table of parts, which is byte for byte the file share/parts.txt.

/// Text of the built-in table, in the format that `part_in` reads.
pub const PARTS: &str = "\
# Parts for `dfu plan`. A line is a region of sectors of one size: the part, the region's address, the bytes of a sector, the number of
# sectors, and behind # where the numbers are from. The regions of a part stand in the order of their addresses. Sizes are 16K, 0x4000
# or 16384.
#
# A line that is from memory was not checked by anybody. Check it in the part's data sheet before you use it, and write behind # which one.

stm32f103x8  0x08000000  1K     64  # from memory
stm32f103xb  0x08000000  1K    128  # from memory
stm32f103xc  0x08000000  2K    128  # from memory
stm32f401xe  0x08000000  16K     4  # from memory
stm32f401xe  0x08010000  64K     1  # from memory
stm32f401xe  0x08020000  128K    3  # from memory
stm32f407    0x08000000  16K     4  # from memory
stm32f407    0x08010000  64K     1  # from memory
stm32f407    0x08020000  128K    7  # from memory
stm32f411    0x08000000  16K     4  # from memory
stm32f411    0x08010000  64K     1  # from memory
stm32f411    0x08020000  128K    3  # from memory
stm32f446    0x08000000  16K     4  # from memory
stm32f446    0x08010000  64K     1  # from memory
stm32f446    0x08020000  128K    3  # from memory
stm32f746    0x08000000  32K     4  # from memory
stm32f746    0x08020000  128K    1  # from memory
stm32f746    0x08040000  256K    3  # from memory
stm32f767    0x08000000  32K     4  # from memory
stm32f767    0x08020000  128K    1  # from memory
stm32f767    0x08040000  256K    7  # from memory
stm32h743    0x08000000  128K   16  # from memory
nrf52832     0x00000000  4K    128  # from memory
nrf52840     0x00000000  4K    256  # from memory
rp2040       0x10000000  4K    512  # from memory: QSPI flash of 2 MiB
";
