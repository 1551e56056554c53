//! The numbers of the scheme. Each stands here alone; specs/Parameters.antt gives them to
//! contracts.

/// q1 = 35 * 2^45 + 1.
pub const FIRST_MODULUS: u64 = 1231453023109121;

/// q2 = 19 * 2^46 + 1.
pub const SECOND_MODULUS: u64 = 1337006139375617;

/// q = q1 * q2, the modulus of ciphertexts.
pub const CIPHER_MODULUS: u128 = FIRST_MODULUS as u128 * SECOND_MODULUS as u128;

/// t = 2^16 + 1, the modulus of messages.
pub const PLAIN_MODULUS: u64 = 65537;

/// The inverse of q1 modulo q2.
pub const INVERSE_OF_FIRST: u64 = 891337426250424;

/// The bits of a digit.
pub const DIGIT_BITS: u32 = 17;

/// The base of the digits.
pub const DIGIT_BASE: u64 = 1 << DIGIT_BITS;

/// How many digits give each number below q.
pub const DIGIT_COUNT: u32 = 6;

/// The greatest absolute value of a drawn error.
pub const ERROR_BOUND: u32 = 21;

/// The least degree is 2^4.
pub const LEAST_EXPONENT: u32 = 4;

/// The greatest degree is 2^12.
pub const MOST_EXPONENT: u32 = 12;

/// The least number of coefficients of a polynomial.
pub const LEAST_DEGREE: u32 = 1 << LEAST_EXPONENT;

/// The greatest number of coefficients of a polynomial.
pub const MOST_DEGREE: u32 = 1 << MOST_EXPONENT;
