//! The words of the language by their classes, as a grammar sees them: 2k + 6 for the keyword k, 2m
//! + 7 for the mark m, with keywords and marks numbered from 0.

/// Any name but the four of the job buffers.
pub const NAME: u64 = 0;
/// The name `A`; so the other three.
pub const NAME_A: u64 = 1;

pub const NAME_B: u64 = 2;

pub const NAME_C: u64 = 3;

pub const NAME_D: u64 = 4;

/// A number.
pub const NUMBER: u64 = 5;

pub const SIGNAL: u64 = 6;

pub const SINGLE: u64 = 8;

pub const COMBINED: u64 = 10;

pub const BUFFERED: u64 = 12;

pub const DIRECT: u64 = 14;

pub const OUTSIDE: u64 = 16;

pub const DATA: u64 = 18;

pub const ANSWER: u64 = 20;

pub const BLOCK: u64 = 22;

pub const DECLARE: u64 = 24;

pub const VARIABLE: u64 = 26;

pub const TEMPORARY: u64 = 28;

pub const FILE: u64 = 30;

pub const FORLOPP: u64 = 32;

pub const FIELD: u64 = 34;

pub const WIDTH: u64 = 36;

pub const SIZE: u64 = 38;

pub const INIT: u64 = 40;

pub const SURVEY: u64 = 42;

pub const RECEIVE: u64 = 44;

pub const SEND: u64 = 46;

pub const PROGRAM: u64 = 48;

pub const END: u64 = 50;

pub const GOTO: u64 = 52;

pub const IF: u64 = 54;

pub const THEN: u64 = 56;

pub const ELSE: u64 = 58;

pub const FI: u64 = 60;

pub const CASE: u64 = 62;

pub const IS: u64 = 64;

pub const WHEN: u64 = 66;

pub const DO: u64 = 68;

pub const OTHERWISE: u64 = 70;

pub const ESAC: u64 = 72;

pub const ON: u64 = 74;

pub const FROM: u64 = 76;

pub const UPTO: u64 = 78;

pub const NO: u64 = 80;

pub const FOR: u64 = 82;

pub const FIRST: u64 = 84;

pub const IN: u64 = 86;

pub const WHERE: u64 = 88;

pub const ENTER: u64 = 90;

pub const WITH: u64 = 92;

pub const REFERENCE: u64 = 94;

pub const NEW: u64 = 96;

pub const RETRIEVE: u64 = 98;

pub const RETURN: u64 = 100;

pub const TRANSFER: u64 = 102;

pub const EXIT: u64 = 104;

pub const SEIZE: u64 = 106;

pub const FREE: u64 = 108;

pub const AND: u64 = 110;

pub const OR: u64 = 112;

pub const MOD: u64 = 114;

pub const CLEAR: u64 = 116;

/// `;`
pub const SEMI: u64 = 7;
/// `,`
pub const COMMA: u64 = 9;
/// `(`
pub const OPEN: u64 = 11;
/// `)`
pub const CLOSE: u64 = 13;
/// `=`
pub const EQUAL: u64 = 15;
/// `+`
pub const PLUS: u64 = 17;
/// `-`
pub const MINUS: u64 = 19;
/// `*`
pub const TIMES: u64 = 21;
/// `/`
pub const OVER: u64 = 23;
/// `<`
pub const BELOW: u64 = 25;
/// `>`
pub const ABOVE: u64 = 27;
/// `<=`
pub const AT_MOST: u64 = 29;
/// `>=`
pub const AT_LEAST: u64 = 31;
/// `<>`
pub const UNEQUAL: u64 = 33;
