// The two tables. A row's code is its place.
ghost use Rattle.std.specs.Prelude.{◌≡◌};
ghost use Rattle.std.specs.List.{range_with_len};
ghost use Rattle.name_tables.specs.Rows.{names_of, codes_of, NamesDiffer};
ghost use Rattle.name_tables.specs.Names.{keyword_names, operation_names};

use crate::row::Row;

/// The keywords of the language, each numbered by its place.
pub fn keywords() -> [Row; 56]
    ensures names { names_of result ≡ keyword_names }
    ensures codes { codes_of result ≡ range_with_len 0 56 }
    ensures differ { NamesDiffer (names_of result) }
{
    macro_rules! rows {
        ($($name:literal $code:literal),*) => { [$(Row { name: $name, code: $code }),*] };
    }
    rows!(
        b"SIGNAL" 0, b"SINGLE" 1, b"COMBINED" 2, b"BUFFERED" 3, b"DIRECT" 4, b"OUTSIDE" 5,
        b"DATA" 6, b"ANSWER" 7, b"BLOCK" 8, b"DECLARE" 9, b"VARIABLE" 10, b"TEMPORARY" 11,
        b"FILE" 12, b"FORLOPP" 13, b"FIELD" 14, b"WIDTH" 15, b"SIZE" 16, b"INIT" 17, b"SURVEY" 18,
        b"RECEIVE" 19, b"SEND" 20, b"PROGRAM" 21, b"END" 22, b"GOTO" 23, b"IF" 24, b"THEN" 25,
        b"ELSE" 26, b"FI" 27, b"CASE" 28, b"IS" 29, b"WHEN" 30, b"DO" 31, b"OTHERWISE" 32,
        b"ESAC" 33, b"ON" 34, b"FROM" 35, b"UPTO" 36, b"NO" 37, b"FOR" 38, b"FIRST" 39, b"IN" 40,
        b"WHERE" 41, b"ENTER" 42, b"WITH" 43, b"REFERENCE" 44, b"NEW" 45, b"RETRIEVE" 46,
        b"RETURN" 47, b"TRANSFER" 48, b"EXIT" 49, b"SEIZE" 50, b"FREE" 51, b"AND" 52, b"OR" 53,
        b"MOD" 54,
        b"CLEAR" 55
    )
}

/// The names of the machine's instructions, each numbered by its place.
pub fn operations() -> [Row; 38]
    ensures names { names_of result ≡ operation_names }
    ensures codes { codes_of result ≡ range_with_len 0 38 }
    ensures differ { NamesDiffer (names_of result) }
{
    macro_rules! rows {
        ($($name:literal $code:literal),*) => { [$(Row { name: $name, code: $code }),*] };
    }
    rows!(
        b"STMT" 0, b"LDI" 1, b"LDT" 2, b"STT" 3, b"LDE" 4, b"LDA" 5, b"ADD" 6, b"SUB" 7, b"MUL" 8,
        b"DIV" 9, b"REM" 10, b"EQ" 11, b"NE" 12, b"LT" 13, b"LE" 14, b"GT" 15, b"GE" 16, b"AND" 17,
        b"OR" 18, b"JMP" 19, b"JZ" 20, b"LDW" 21, b"STW" 22, b"CKW" 23, b"CKP" 24, b"OWN" 25,
        b"LDX" 26, b"STX" 27, b"CKF" 28, b"CHN" 29,
        b"UNC" 30, b"ARG" 31, b"SND" 32, b"DIR" 33, b"CALL" 34, b"RET" 35, b"TRF" 36, b"END" 37
    )
}
