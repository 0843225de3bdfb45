// Texts that are read and printed, beside their prints as they were written by hand.
use plex_lexer::lex;
use plex_limits::MOST_BYTES;
use plex_num::Seq;
use plex_parser::parse;
use plex_print::print_tree;
use std::alloc::Global;
use std::test::Fail;

/// The text of the tree that a text spells; none where it spells none, or where memory is refused.
fn printed(alloc: Global, text: &[u8]) -> Option<Seq<u8>> {
    if text.len() > MOST_BYTES {
        return None;
    }
    let Ok(tokens) = lex(alloc, text) else {
        return None;
    };
    let Ok(tree) = parse(alloc, &tokens) else {
        return None;
    };
    match print_tree(alloc, &tree) {
        Ok(text) => Some(text),
        Err(_) => None,
    }
}

fn is_printed_as(alloc: Global, text: &[u8], wanted: &[u8]) -> bool {
    match printed(alloc, text) {
        Some(print) => print.as_slice() == wanted,
        None => false,
    }
}

/// What each case is of, its text in a layout of its own, and the print of its tree.
#[test]
fn texts_are_printed_as_written_by_hand(rt: HostRuntime) -> Result<(), Fail> {
    let alloc = rt.alloc();
    for (case, text, print) in [
        (
            "signals and declarations",
            "! all kinds ! SIGNAL NONE OUTSIDE DATA 9;\nSIGNAL A SINGLE BUFFERED A DATA 0;SIGNAL B \
             SINGLE BUFFERED B DATA 008;\r\nSIGNAL C SINGLE BUFFERED C DATA 1;\tSIGNAL D SINGLE \
             BUFFERED D DATA 2;SIGNAL HOP SINGLE DIRECT DATA 3;SIGNAL ASK COMBINED DATA 4 ANSWER \
             TOLD DATA 5;SIGNAL GONE OUTSIDE DATA 6;BLOCK K;DECLARE;VARIABLE N WIDTH 8;VARIABLE M \
             WIDTH 32 INIT 4294967295;VARIABLE O WIDTH 1 INIT 1 CLEAR;VARIABLE P WIDTH 2 CLEAR;\
             TEMPORARY T;FILE F SIZE 65535;FIELD X WIDTH 16;FIELD Y WIDTH 4 INIT 9;FORLOPP FILE G \
             SIZE 1;SURVEY;RECEIVE A;SEND HOP;PROGRAM;END BLOCK;BLOCK L;DECLARE;SURVEY;PROGRAM;END \
             BLOCK;",
            "SIGNAL A SINGLE BUFFERED A DATA 0 ;\n\
             SIGNAL B SINGLE BUFFERED B DATA 8 ;\n\
             SIGNAL C SINGLE BUFFERED C DATA 1 ;\n\
             SIGNAL D SINGLE BUFFERED D DATA 2 ;\n\
             SIGNAL HOP SINGLE DIRECT DATA 3 ;\n\
             SIGNAL ASK COMBINED DATA 4 ANSWER TOLD DATA 5 ;\n\
             SIGNAL GONE OUTSIDE DATA 6 ;\n\
             BLOCK K ;\n\
             DECLARE ;\n\
             VARIABLE N WIDTH 8 ;\n\
             VARIABLE M WIDTH 32 INIT 4294967295 ;\n\
             VARIABLE O WIDTH 1 INIT 1 CLEAR ;\n\
             VARIABLE P WIDTH 2 CLEAR ;\n\
             TEMPORARY T ;\n\
             FILE F SIZE 65535 ;\n\
             FIELD X WIDTH 16 ;\n\
             FIELD Y WIDTH 4 INIT 9 ;\n\
             FORLOPP FILE G SIZE 1 ;\n\
             SURVEY ;\n\
             RECEIVE A ;\n\
             SEND HOP ;\n\
             PROGRAM ;\n\
             END BLOCK ;\n\
             BLOCK L ;\n\
             DECLARE ;\n\
             SURVEY ;\n\
             PROGRAM ;\n\
             END BLOCK ;\n",
        ),
        (
            "statements that hold none",
            "BLOCK K;DECLARE;SURVEY;PROGRAM;ENTER A;ENTER B WITH T;ENTER C WITH T,U;L)M)V=1;X(T)=2;\
             GOTO L;IF V<3 GOTO M;FOR FIRST T IN F WHERE X>=4 GOTO L;SEND A;SEND B WITH 5;SEND C \
             REFERENCE K WITH 6,T NEW FORLOPP;SEND A REFERENCE(V)NEW FORLOPP;RETRIEVE R;RETRIEVE R \
             WITH T,U,V;RETURN R;RETURN R WITH 7,8;TRANSFER H;TRANSFER H REFERENCE K;TRANSFER H \
             REFERENCE(T);SEIZE T IN G ELSE GOTO M;FREE T IN G;EXIT;END BLOCK;",
            "BLOCK K ;\n\
             DECLARE ;\n\
             SURVEY ;\n\
             PROGRAM ;\n\
             ENTER A ;\n\
             ENTER B WITH T ;\n\
             ENTER C WITH T , U ;\n\
             L ) M ) V = 1 ;\n\
             X ( T ) = 2 ;\n\
             GOTO L ;\n\
             IF V < 3 GOTO M ;\n\
             FOR FIRST T IN F WHERE X >= 4 GOTO L ;\n\
             SEND A ;\n\
             SEND B WITH 5 ;\n\
             SEND C REFERENCE K WITH 6 , T NEW FORLOPP ;\n\
             SEND A REFERENCE ( V ) NEW FORLOPP ;\n\
             RETRIEVE R ;\n\
             RETRIEVE R WITH T , U , V ;\n\
             RETURN R ;\n\
             RETURN R WITH 7 , 8 ;\n\
             TRANSFER H ;\n\
             TRANSFER H REFERENCE K ;\n\
             TRANSFER H REFERENCE ( T ) ;\n\
             SEIZE T IN G ELSE GOTO M ;\n\
             FREE T IN G ;\n\
             EXIT ;\n\
             END BLOCK ;\n",
        ),
        (
            "statements that hold others, and what is counted",
            "BLOCK K;DECLARE;SURVEY;PROGRAM;IF V=1 AND T<>2 OR 3<=X(T)AND V>4 OR V>=5 THEN FI;IF \
             V<6 THEN V=7;ELSE ON I FROM 1 UPTO T+1 DO EXIT;T=I;NO;FI;CASE V MOD 2 IS OTHERWISE DO \
             ESAC;CASE V IS WHEN 0 DO WHEN 01 DO IF T=8 THEN EXIT;FI;V=9;OTHERWISE DO V=0;ESAC;V=1+\
             2-3*X(T)/REFERENCE K MOD((V+1)*(((2))));END BLOCK;",
            "BLOCK K ;\n\
             DECLARE ;\n\
             SURVEY ;\n\
             PROGRAM ;\n\
             IF V = 1 AND T <> 2 OR 3 <= X ( T ) AND V > 4 OR V >= 5 THEN FI ;\n\
             IF V < 6 THEN V = 7 ;\n\
             ELSE ON I FROM 1 UPTO T + 1 DO EXIT ;\n\
             T = I ;\n\
             NO ;\n\
             FI ;\n\
             CASE V MOD 2 IS OTHERWISE DO ESAC ;\n\
             CASE V IS WHEN 0 DO WHEN 1 DO IF T = 8 THEN EXIT ;\n\
             FI ;\n\
             V = 9 ;\n\
             OTHERWISE DO V = 0 ;\n\
             ESAC ;\n\
             V = 1 + 2 - 3 * X ( T ) / REFERENCE K MOD ( ( V + 1 ) * ( ( ( 2 ) ) ) ) ;\n\
             END BLOCK ;\n",
        ),
    ] {
        assert!(rt;
            is_printed_as(alloc, text.as_bytes(), print.as_bytes()),
            "{case}"
        );
        assert!(rt;
            is_printed_as(alloc, print.as_bytes(), print.as_bytes()),
            "{case}, again"
        );
    }
    Ok(())
}
