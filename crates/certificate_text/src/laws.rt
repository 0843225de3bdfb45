// What the words of the definitions mean, for every text and every certificate.
ghost use Rattle.std.specs.Prelude.{◌≡◌, ◌≢◌, ◌≤◌, ◌↔◌, ◌⊎◌, List, ℕ, length};
ghost use Rattle.std.specs.List.{flat_map};
ghost use Rattle.certificate_text.specs.Lines.{HasBadLine, IsTextOf};
ghost use Rattle.certificate_text.specs.Text.{CertificateFits, certificate_text, text_in};
ghost use Rattle.certificate_text.specs.declared.certificate.Certificate.{Certificate};
ghost use Rattle.certificate_text.specs.declared.version.Version.TheVariants.{One};
ghost use Rattle.text_lines.specs.Lines.{lines_in};

/// What is printed is the text of the certificate that was printed.
pub fn printed_is_read()
    ensures { (c : Certificate) → CertificateFits c → IsTextOf (certificate_text c) c }
{}

/// A text is that of one certificate at most: reading what was printed gives the certificate.
pub fn text_has_one_certificate()
    ensures { (text : List ℕ) (c d : Certificate) → IsTextOf text c → IsTextOf text d → c ≡ d }
{}

/// A certificate has one text of the second version, which is printed, and one more of the first
/// where it has no references.
pub fn certificate_has_these_texts()
    ensures texts { (text : List ℕ) (c : Certificate) → IsTextOf text c
        ↔ (CertificateFits c × ((text ≡ certificate_text c)
        ⊎ ((c.shape.references ≡ 0) × (text ≡ text_in One c)))) }
    ensures apart { (c : Certificate) → text_in One c ≢ certificate_text c }
{}

/// The lines of a text, one after the other, are the text.
pub fn lines_are_the_text()
    ensures { (text : List ℕ) → flat_map (λ line. line) (lines_in text) ≡ text }
{}

/// The line at fault is one of the lines of the text, or behind its last LF.
pub fn bad_line_is_a_line()
    ensures { (text : List ℕ) (l : ℕ) → HasBadLine text l →
        (1 ≤ l) × (l ≤ length (lines_in text)) }
{}
