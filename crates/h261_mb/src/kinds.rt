//! What a kind of macroblock has: the columns of the table of MTYPE (H.261, 4.2.3.2).

ghost use Rattle.std.specs.Prelude.{◌≡◌};
ghost use Rattle.pel_model.specs.Codes.{is_intra, has_mquant, has_vector, has_cbp};

use pel_model::MbKind;

#[inline]
pub fn is_intra(kind: MbKind) -> bool
    ensures { result ≡ is_intra kind }
{
    matches!(kind, MbKind::Intra | MbKind::IntraQuant)
}

#[inline]
pub fn has_mquant(kind: MbKind) -> bool
    ensures { result ≡ has_mquant kind }
{
    matches!(
        kind,
        MbKind::IntraQuant | MbKind::InterQuant | MbKind::McQuant | MbKind::McFilQuant
    )
}

#[inline]
pub fn has_vector(kind: MbKind) -> bool
    ensures { result ≡ has_vector kind }
{
    !matches!(
        kind,
        MbKind::Intra | MbKind::IntraQuant | MbKind::Inter | MbKind::InterQuant
    )
}

#[inline]
pub fn has_cbp(kind: MbKind) -> bool
    ensures { result ≡ has_cbp kind }
{
    !matches!(
        kind,
        MbKind::Intra | MbKind::IntraQuant | MbKind::Mc | MbKind::McFil
    )
}
