//! Scripts that several tests run.

/// Makes a procedure, calls it, and calls one that isn't there.
pub const FIRST_CALLS: &[u8] =
    b"CREATE PROCEDURE a IS BEGIN DBMS_OUTPUT.PUT_LINE('a'); END;\n/\nCALL a();\nCALL b();\n";

pub const FIRST_REPLIES: &[u8] = b"OK\na\nOK\nORA-06550\n";

/// Replaces a procedure in a child edition, and calls it there and in the first one.
pub const UPGRADE: &[u8] = b"CREATE PROCEDURE a IS BEGIN DBMS_OUTPUT.PUT_LINE('a'); END;
/
CREATE EDITION v2;
ALTER SESSION SET EDITION = v2;
CREATE OR REPLACE PROCEDURE a IS BEGIN DBMS_OUTPUT.PUT_LINE('b'); END;
/
CALL a();
ALTER SESSION SET EDITION = ora$base;
CALL a();
";

pub const UPGRADE_REPLIES: &[u8] = b"OK\nOK\nOK\nOK\nb\nOK\nOK\na\nOK\n";
