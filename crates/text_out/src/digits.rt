//! Hexadecimal digits, in lower case.
ghost use Rattle.std.specs.Prelude.{◌≡◌, ◌<◌};
ghost use Rattle.pmsi_model.specs.Lines.{digit_of, hex_digits, hex_word};

/// The digit of a number below 16.
pub fn hex_digit(n: u32) -> u8
    requires { n < 16 }
    ensures { result ≡ digit_of n }
{
    if n < 10 { 48 + n as u8 } else { 87 + n as u8 }
}

/// The two digits of a byte, the higher first.
pub fn hex_byte(byte: u8) -> [u8; 2]
    ensures { result ≡ hex_digits 2 byte }
{
    let n = u32::from(byte);
    [hex_digit(n / 16 % 16), hex_digit(n % 16)]
}

/// `0x` and the eight digits of a word, the highest first.
pub fn hex_word(word: u32) -> [u8; 10]
    ensures { result ≡ hex_word word }
{
    [
        b'0',
        b'x',
        hex_digit(word / 0x1000_0000 % 16),
        hex_digit(word / 0x100_0000 % 16),
        hex_digit(word / 0x10_0000 % 16),
        hex_digit(word / 0x1_0000 % 16),
        hex_digit(word / 0x1000 % 16),
        hex_digit(word / 0x100 % 16),
        hex_digit(word / 0x10 % 16),
        hex_digit(word % 16),
    ]
}
