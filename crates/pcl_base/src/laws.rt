//! Laws of the tables.

ghost use Rattle.std.specs.Prelude.{◌≡◌, ℕ, Some};
ghost use Rattle.pcl_base.specs.declared.method.Method.{Method};
ghost use Rattle.pcl_base.specs.declared.size.Size.{Size};
ghost use Rattle.pcl_base.specs.Method.{method_code, method_with_code};
ghost use Rattle.pcl_base.specs.Size.{code_of, size_with_code};

/// Page sizes and methods have one number each, and no other number is theirs. A law: the call does nothing.
pub fn codes_lead_back()
    ensures size { (size : Size) → size_with_code (code_of size) ≡ Some size }
    ensures size_code { (code : ℕ) (size : Size) → size_with_code code ≡ Some size → code_of size ≡ code }
    ensures method { (method : Method) → method_with_code (method_code method) ≡ Some method }
    ensures method_code { (code : ℕ) (method : Method) → method_with_code code ≡ Some method → method_code method ≡ code }
{}
