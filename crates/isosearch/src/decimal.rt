// Numbers in decimal, without memory.
ghost use Rattle.std.specs.Prelude.{◌≡◌, ◌≤◌, drop};
ghost use Rattle.std.specs.Fmt.{decimal};

/// The decimal digits of a number, at the end of a small buffer.
#[derive(Drop)]
pub struct Decimal {
    digits: [u8; 10],
    from: usize,
    ghost within: { from ≤ 10 },
}

impl Decimal {
    /// The digits of `n`, without leading zeros.
    pub fn of(n: u32) -> Decimal
        ensures { drop result.from result.digits ≡ decimal n }
    {
        let mut digits = [b'0'; 10];
        let mut from = 10;
        let mut rest = n;
        'digits: while rest >= 10 {
            from -= 1;
            digits[from] = b'0' + (rest % 10) as u8;
            rest /= 10;
        }
        from -= 1;
        digits[from] = b'0' + rest as u8;
        Decimal { digits, from }
    }

    /// The digits as bytes.
    pub fn as_slice(&self) -> &[u8]
        ensures { result.now ≡ drop self.now.from self.now.digits }
    {
        &self.digits[self.from..]
    }
}
